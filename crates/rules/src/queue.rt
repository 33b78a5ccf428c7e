// RULES 1.7 and 1.10: the words of the queues. A queue's length is a word of the head, its entry at position i three words of
// row i; both stand by the kind of those who wait there.
ghost use Rattle.std.specs.Prelude.{◌≡◌};
ghost use Rattle.rules.specs.Settled.{verdict_word};

// The topactions' queue's length, in the head.
pub const LENGTH_FIELDS: u64 = 3;

// The topactions' queue's entry, and how many words an entry has.
pub const ENTRY_FIELDS: u64 = 83;

pub const ENTRY_WIDTH: u64 = 3;

// In an entry, behind the number.
pub const VERDICT_AT: u64 = 1;

pub const READY_AT: u64 = 2;

// The positions of a queue, from the head on.
pub const FIRST_POSITION: u64 = 1;

// The verdict that an enter settles. In an entry any word but the first is that of a failed one.
#[derive(Clone, Copy, PartialEq, Eq)]
pub enum Verdict {
    Good = 0,
    Failed = 1,
}

impl From<Verdict> for u64 {
    ghost from_gives = { λ verdict word. word ≡ verdict_word verdict };

    fn from(verdict: Verdict) -> u64 {
        verdict as u64
    }
}

// Readiness: any word but the first is that of a ready one.
pub const UNREADY: u64 = 0;

pub const READY: u64 = 1;
