// The price dealt at a struck level by each of the shipped fill rules, set out as a table for people.

#![tactic(auto)]

pub mod fills;
