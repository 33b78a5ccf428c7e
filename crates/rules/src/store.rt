// RULES 1.1, 1.2 and 1.4: the sizes of cards and stores.
pub const ACCOUNTS: u64 = 32;

pub const FIRST_ACCOUNT: u64 = 0;

// RULES 1.9: the charge accounts are those from here on.
pub const FIRST_CHARGE: u64 = 24;

pub const CARD_LENGTH: usize = 32;

pub const BASE_LENGTH: usize = 1024;

pub const SHADOW_LENGTH: usize = 65536;

// How far apart the cards of neighbouring accounts stand, and those of neighbouring actions.
pub const CARD_STRIDE: u64 = 32;

pub const ACTION_STRIDE: u64 = 1024;
