// A queue of actions that wait to be judged: who stands in it, and its changes.
#![tactic(auto)]

pub mod change;
pub mod find;
