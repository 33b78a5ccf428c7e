// RULES 1.7: the table's words. Row 0 is the head, row n is action n.
use crate::rule::Rule;

pub const MOST_ACTIONS: u64 = 64;

pub const WIDTH: u64 = 161;

pub const TABLE_LENGTH: usize = 10465;

// The number of the store, where an action's could stand, and the head's row.
pub const STORE: u64 = 0;

pub const HEAD: u64 = 0;

// Words of the head.
pub const HIGHEST_FIELD: u64 = 0;

pub const COUNTER_FIELDS: u64 = 1;

// RULES 1.12: the rule by which the table judges commits. Its word is the rule less 1, so that a table of zeros has the first.
pub const RULE_FIELD: u64 = 5;

pub const BACKWARD_WORD: u64 = Rule::Backward as u64 - 1;

pub const FORWARD_WORD: u64 = Rule::Forward as u64 - 1;

// Words of an action; a read set and a write set have one for each account, from here on.
pub const PARENT_FIELD: u64 = 0;

pub const STATE_FIELD: u64 = 1;

pub const END_FIELD: u64 = 2;

pub const READ_FIELDS: u64 = 3;

pub const WRITE_FIELDS: u64 = 35;

// A pending sum stands this far behind its account's number: the first charge account's directly behind the write set.
pub const PENDING_FIELDS: u64 = 43;

// Its own adds stand this far behind it: the first charge account's directly behind the pending sums.
pub const OWN_ADDS_FIELDS: u64 = 51;

// The subaction times of a read set: for each account the one beside its read entry, from here on.
pub const SUB_TIME_FIELDS: u64 = 89;

// Its kept sums, of row 0 the store's, stand this far behind it: the first charge account's directly behind the subaction times.
pub const KEPT_FIELDS: u64 = 97;

// Its newest end times, of row 0 the store's: one for each account, from here on, behind the kept sums.
pub const NEWEST_FIELDS: u64 = 129;

// The moves up to a version that is where one stands, and those of a refused look.
pub const NO_MOVES: u64 = 0;

// The entry of an account that is in neither set, and that of one in a write set.
pub const NO_ENTRY: u64 = 0;

pub const ENTERED: u64 = 1;

// The word of a pending sum, of own adds or of a kept sum that is 0.
pub const NO_SUM: u64 = 0;

// The end time of an action that has none, and the first that one can have.
pub const NO_END: u64 = 0;

pub const FIRST_END: u64 = 1;

// The last that one can have.
pub const LAST_TIME: u64 = 4000000000;
