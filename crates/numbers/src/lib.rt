// Numbers: which records are needed, which numbers are free, and which of them a start gives.
#![tactic(auto)]

pub mod free;
mod needed;
