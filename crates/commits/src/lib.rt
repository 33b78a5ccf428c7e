// The commit of an action: judged, and passed or failed; and the end of one that has left its queue.
#![tactic(auto)]

pub mod commit;
mod copy;
mod end;
pub mod finish;
mod held;
mod kept;
mod newest;
pub mod sums;
mod turn;
