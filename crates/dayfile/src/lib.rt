// A whole day on a lent ledger, and its tree.
#![tactic(auto)]

pub mod day;
pub mod tree;
