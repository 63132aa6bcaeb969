// The vocabulary of the dealing book: sides, orders, levels, quotes, contracts, records and refusals.
//
// Amounts are in cents, volumes in hundredths of a lot, prices in points, times in seconds from the unit's setting up.

#![tactic(auto)]

pub mod contract;
pub mod giver;
pub mod level;
pub mod order;
pub mod protection;
pub mod quote;
pub mod record;
pub mod refusal;
pub mod side;
