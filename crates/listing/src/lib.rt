// The lines of a listing and of a tree, put into a buffer.
#![tactic(auto)]

pub mod lines;
mod rows;
pub mod tree;
