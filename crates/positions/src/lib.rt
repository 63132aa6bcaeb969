// The open positions of one account at present prices: their floating results and margins, and the sums that an account is judged by.

#![tactic(auto)]

pub mod position;
pub mod positions;
