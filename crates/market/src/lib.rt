// The market that every account deals on: eight instruments with their listings and prices, the time and the day.

#![tactic(auto)]

pub mod instrument;
pub mod listing;
pub mod market;
