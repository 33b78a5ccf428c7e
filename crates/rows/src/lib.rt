// The table's rows: words, the fields of the head and of an action by name, times by kind, the entries of a queue, an action's
// two sets and pending sums, and the sets joined to its parent's.
#![tactic(auto)]

pub mod entries;
pub mod fields;
pub mod join;
pub mod sets;
pub mod times;
pub mod words;
