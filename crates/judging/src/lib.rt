// The validation queue at work: verdicts settled and revealed, and those who leave.
#![tactic(auto)]

pub mod abort;
pub mod enter;
pub mod judge;
mod leave;
mod verdict;
