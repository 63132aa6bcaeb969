// Fill rules and closing rules: the price that a struck level is dealt at, and the position that a stop-out closes first.

#![tactic(auto)]

pub mod candidate;
pub mod closing;
pub mod fill;
pub mod least;
pub mod shipped;
