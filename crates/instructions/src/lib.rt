// Instructions: as a client or an advisor submits them, and as they wait and run, their numbers checked.

#![tactic(auto)]

pub mod checked;
pub mod instruction;
mod narrow;
pub mod submission;
