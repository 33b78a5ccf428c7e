// RULES 12.6: the words of a tree's report.
use crate::table::MOST_ACTIONS;

// How many levels a tree has at most.
pub const MOST_LEVELS: u64 = MOST_ACTIONS;

// The depth of a topaction.
pub const TOP: u64 = 0;

// How many lines a refused report has.
pub const NO_LINES: u64 = 0;

// A line: depth, number, state, and from here on two figures to a charge account.
pub const NUMBER_AT: usize = 1;

pub const STATE_AT: usize = 2;

pub const FIGURES_AT: usize = 3;

// An account's figures in a line: own adds, then total.
pub const FIGURES: usize = 2;

pub const TOTAL_AT: usize = 1;

// All figures of a line.
pub const LINE_FIGURES: usize = 16;

pub const LINE_LENGTH: usize = 19;

// The last block, and its lines: account, opening, sum, closing.
pub const BLOCK_AT: usize = 1216;

pub const OPENING_AT: usize = 1;

pub const SUM_AT: usize = 2;

pub const CLOSING_AT: usize = 3;

pub const BALANCE_FIGURES: usize = 3;

pub const BALANCE_LENGTH: usize = 4;

// How many lines it has: one to a charge account.
pub const BALANCES: usize = 8;

pub const REPORT_LENGTH: usize = 1248;
