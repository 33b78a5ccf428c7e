// RULES 9.1 and 11.4: the limits of a day file, and the buffers that a day needs.
use crate::event::EVENT_LENGTH;
use crate::kind::ANSWER_LENGTH;

pub const MOST_CARDS: usize = 32;

pub const MOST_EVENTS: usize = 1000;

// The bytes of the count of opening cards, of an account before its card, of both, and of the count of events.
pub const CARD_COUNT_LENGTH: usize = 1;

pub const ACCOUNT_LENGTH: usize = 1;

pub const ENTRY_LENGTH: usize = 33;

pub const EVENT_COUNT_LENGTH: usize = 2;

// The longest day file, the words of its answers, and room for its listing.
pub const FILE_LENGTH: usize = CARD_COUNT_LENGTH
    + MOST_CARDS * ENTRY_LENGTH
    + EVENT_COUNT_LENGTH
    + MOST_EVENTS * EVENT_LENGTH;

pub const ANSWERS_LENGTH: usize = ANSWER_LENGTH * MOST_EVENTS;

pub const LISTING_LENGTH: usize = 81920;
