// Worked figures of an account as theorems: each contract states what the code answers for the unit's kinds,
// and that the definition answers the same.

#![tactic(auto)]

pub mod values;
