// The short day at a place (RULES 15).
#![tactic(auto)]

mod back;
mod candidate;
pub mod day;
mod search;
