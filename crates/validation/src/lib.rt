// Validation: what is found against an action that asks to commit or enters its queue. Backwards it is the first clash: whether
// there is one is known at once, and the records are searched for which one it is. Forwards it is the first reader ahead.
#![tactic(auto)]

pub mod ahead;
mod known;
mod records;
mod search;
pub mod verdict;
