// RULES 1.3 and 1.5: the two kinds of action, and the states that one may have. Their numbers are the table's words.
ghost use Rattle.std.specs.Prelude.{◌≡◌};
ghost use Rattle.rules.specs.Action.{kind_number, state_number};

// The words of a counter and of a queue stand by the kind's number.
#[derive(Clone, Copy, PartialEq, Eq)]
pub enum Kind {
    Top = 0,
    Sub = 1,
}

impl From<Kind> for u64 {
    ghost from_gives = { λ kind number. number ≡ kind_number kind };

    fn from(kind: Kind) -> u64 {
        kind as u64
    }
}

#[derive(Clone, Copy, PartialEq, Eq)]
pub enum State {
    Live = 1,
    Committed = 2,
    Aborted = 3,
}

impl From<State> for u64 {
    ghost from_gives = { λ state word. word ≡ state_number state };

    fn from(state: State) -> u64 {
        state as u64
    }
}
