// RULES 5: the kinds of answers, and how many words an answer has in a list's buffer.
pub const REFUSED: u64 = 0;

pub const STARTED: u64 = 1;

pub const READ: u64 = 2;

pub const WRITTEN: u64 = 3;

pub const COMMITTED: u64 = 4;

pub const FAILED: u64 = 5;

pub const ABORTED: u64 = 6;

pub const ADDED: u64 = 7;

pub const READ_SUM: u64 = 8;

pub const ENTERED: u64 = 9;

pub const READY: u64 = 10;

pub const JUDGED_FAILED: u64 = 11;

pub const ANSWER_LENGTH: usize = 4;
