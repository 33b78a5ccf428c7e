// Why a call is refused.
#![tactic(auto)]

mod busy;
pub mod cause;
