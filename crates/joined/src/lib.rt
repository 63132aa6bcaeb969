// How two contract kinds act as one, and the unit's kinds, which are joined so.

#![tactic(auto)]

pub mod pair;
pub mod unit;
