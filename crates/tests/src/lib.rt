// Examples of both sides of the limits and of the shipped kinds and rules, as tests that are proved and run.

#![tactic(auto)]

#[cfg(test)]
mod instructions_checked;
#[cfg(test)]
mod kinds_answer;
#[cfg(test)]
mod limits_hold;
#[cfg(test)]
mod rules_answer;
