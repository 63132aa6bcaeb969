// Contract kinds: which contracts a kind admits, what a closing pays and what margin a position needs.

#![tactic(auto)]

mod amounts;
pub mod deal;
pub mod direct;
pub mod indirect;
pub mod kind;
pub mod share;
pub mod shipped;
