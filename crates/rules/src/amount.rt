// RULES 1.9: amounts, and the words and bytes that hold them.
pub const AMOUNT_LENGTH: usize = 8;

// Where a card's amount begins.
pub const AMOUNT_AT: usize = 0;

// How many values a byte has.
pub const BYTE_VALUES: u64 = 256;

// The first word that stands for an amount below 0.
pub const SIGN: u64 = 9223372036854775808;

// The largest amount that an event may add or take away.
pub const MOST_ADDED: u64 = 1000000;
