// An account at present prices under the unit's kinds, set out as a table for people.

#![tactic(auto)]

pub mod orders;
pub mod statement;
