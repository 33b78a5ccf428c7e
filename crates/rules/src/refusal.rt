// RULES 8.1, 9.2, 11, 14.2 and 15.4: why something is refused. Its number is what callers without the enum are given, and what is
// printed.
ghost use Rattle.std.specs.Prelude.{◌≡◌};
ghost use Rattle.rules.specs.Refusal.{refusal_number};

// None has the number 0, which says that nothing was refused.
#[derive(Clone, Copy, PartialEq, Eq)]
pub enum Refusal {
    StoreLength = 1,
    Unsound = 2,
    Code = 3,
    Number = 4,
    NotLive = 5,
    TableFull = 6,
    Account = 7,
    CardLength = 8,
    ChildLive = 9,
    Length = 10,
    Count = 11,
    Opening = 12,
    Kind = 13,
    Amount = 14,
    Sum = 15,
    Queued = 16,
    Judge = 17,
    Queue = 18,
    Time = 19,
    Rule = 20,
    Misfit = 21,
    LongDay = 25,
}

impl From<Refusal> for u64 {
    ghost from_gives = { λ refusal number. number ≡ refusal_number refusal };

    fn from(refusal: Refusal) -> u64 {
        refusal as u64
    }
}
