// A list of charges: for each charge account the exact sum, and beside it the total as last year's program made it.
#![tactic(auto)]

pub mod column;
mod list;
pub mod print;
mod running;
