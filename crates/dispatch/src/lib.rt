// An event on a sound table, by its code: refused, or carried out; and the cause that it would have.
#![tactic(auto)]

mod act;
pub mod cause;
pub mod event;
pub mod listed;
