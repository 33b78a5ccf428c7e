// The open calls on a ledger that the caller lends: one event, and a look.
#![tactic(auto)]

pub mod event;
pub mod look;
mod sight;
