// A day file, read: its reader, its faults and its opening cards.
#![tactic(auto)]

pub mod file;
pub mod opening;
mod raw;
pub mod reader;
