// What the rules say in types and numbers: answers, versions, what is found against a commit, and every size, place and code by
// name.
// The definitions of specs/ are the rules themselves; all that is computed here is a type's number, and the type from a number.
#![tactic(auto)]

use crate::refusal::Refusal;

pub mod action;
pub mod amount;
pub mod day;
pub mod event;
pub mod kind;
pub mod queue;
pub mod refusal;
pub mod report;
pub mod rule;
pub mod store;
pub mod table;

// RULES 5: an event's answer. Its word and its numbers are listed by the definition `said` of specs/Answer.antt, and every
// promise goes through that definition.
#[derive(Clone, Copy)]
pub enum Answer {
    // the number that the new action got
    Started(u64),
    // the holder of the nearest version, and the moves up to it
    Read(u64, u64),
    // the same of a charge account, and the word of the sum that the action sees there
    ReadSum(u64, u64, u64),
    Written,
    Added,
    Entered,
    // a judge's: how many then left the action's queue, where the verdict was good and where it was failed
    Ready(u64),
    JudgedFailed(u64),
    // the end time, 0 where nothing was written
    Committed(u64),
    // what was found against the commit: see Found
    Failed(u64, u64),
    // how many actions became aborted, and how many then left the two queues
    Aborted(u64, u64),
    Refused(Refusal),
}

// RULES 3.1: the nearest version of an account, seen from an action.
#[derive(Clone, Copy)]
pub struct Version {
    // the action whose own card it is, or the store
    pub holder: u64,
    // how many moves up lead to it, the one to the store included
    pub moves: u64,
}

// RULES 4: what is found against an action that asks to commit, by the table's rule.
#[derive(Clone, Copy)]
pub struct Found {
    // under rule 1 the end time of the first clash, under rule 2 the number of the first reader ahead
    pub against: u64,
    pub account: u64,
}
