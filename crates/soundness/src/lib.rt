// The test for a sound table, which every call makes.
#![tactic(auto)]

mod action;
mod held;
mod newest;
mod parents;
mod pending;
mod queue;
pub mod sound;
mod times;
mod told;
mod way;
