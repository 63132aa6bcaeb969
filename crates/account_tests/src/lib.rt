// Examples of an account's tickets and of what it is worth, as tests that are proved and run.

#![tactic(auto)]

#[cfg(test)]
mod tickets_kept;
#[cfg(test)]
mod values_answer;
