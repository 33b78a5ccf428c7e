// The events that are carried out without being judged: start, read, write, add and abort.
#![tactic(auto)]

pub mod abort;
pub mod add;
pub mod read;
pub mod start;
pub mod write;
