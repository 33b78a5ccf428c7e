// A list of events in one call, and an answer as words.
#![tactic(auto)]

pub mod answer;
pub mod run;
