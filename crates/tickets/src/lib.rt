// Tickets, and the table in which an account keeps its live ones.

#![tactic(auto)]

mod by_number;
pub mod table;
pub mod ticket;
