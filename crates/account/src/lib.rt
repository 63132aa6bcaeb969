// One client account: its balance, what was paid in, its nights and its table of tickets, with the measure that bounds its amounts.

#![tactic(auto)]

pub mod account;
mod amounts;
