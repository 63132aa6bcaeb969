// What one account is worth on a market, for any contract kinds: floating results, equity, margin and free margin.

#![tactic(auto)]

mod gather;
pub mod position;
mod sums;
pub mod worth;
