// The tree report of a table: why there is none, its lines, its last block.
#![tactic(auto)]

mod balance;
mod cause;
mod figures;
mod lines;
pub mod report;
mod total;
