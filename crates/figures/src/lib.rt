// Worked figures at the boundaries of the rules, as theorems: each contract states what the shipped code answers,
// and that the definition answers the same.

#![tactic(auto)]

pub mod deals;
pub mod fills;
