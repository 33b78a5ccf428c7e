// Times of one kind: the kind's counter, its actions' end times, the newest of them under a parent, and one of the two times of
// every read. The number in one is known in this file alone, and its kind is part of its type, so no time of the other kind can be
// compared with it.
ghost use Rattle.std.specs.Prelude.{◌≡◌, ◌+◌};
ghost use Rattle.rules.specs.Card.{IsAccount};
ghost use Rattle.rules.specs.Kind.{IsKind};
ghost use Rattle.rules.specs.Table.{counter, with_counter, end_time, with_end_time, newest, with_newest, read_time};
ghost use Rattle.rows.specs.Row.{HasRow};
ghost use Rattle.rows.specs.Times.{IsOfKind, IsParentOf, HasRead, HasRoom, CanCount, sooner_read, later_read, with_read_time};

use crate::fields::has_read;
use crate::words::{get, put};
use rules::action::Kind;
use rules::table::{
    COUNTER_FIELDS, END_FIELD, HEAD, NEWEST_FIELDS, NO_END, READ_FIELDS, SUB_TIME_FIELDS,
};

const TOP: u64 = Kind::Top as u64;

const SUB: u64 = Kind::Sub as u64;

pub type TopTime = TimeOf<TOP>;

pub type SubTime = TimeOf<SUB>;

#[derive(Clone, Copy, PartialEq, Eq, PartialOrd, Ord)]
pub struct TimeOf<const KIND: u64>(u64);

// As a number, for an answer.
impl<const KIND: u64> From<TimeOf<KIND>> for u64 {
    ghost from_gives = { λ t number. number ≡ t.0 };

    fn from(t: TimeOf<KIND>) -> u64 {
        t.0
    }
}

impl<const KIND: u64> TimeOf<KIND> {
    // The end time of an action that has none.
    pub(crate) fn no_end() -> Self
        ensures { result.0 ≡ 0 }
    {
        TimeOf(NO_END)
    }

    pub(crate) fn after(self) -> Self
        requires { CanCount self.0 }
        ensures { result.0 ≡ self.entry.0 + 1 }
    {
        TimeOf(self.0 + 1)
    }

    pub(crate) fn counter(table: &[u64]) -> Self
        requires has_row { HasRow table.now 0 }
        requires kind { IsKind KIND }
        ensures { result.0 ≡ counter table.now KIND }
    {
        TimeOf(get(table, HEAD, COUNTER_FIELDS + KIND))
    }

    pub(crate) fn set_counter(self, table: &mut [u64])
        requires has_row { HasRow table.old 0 }
        requires kind { IsKind KIND }
        ensures { table.new ≡ with_counter table.old KIND self.entry.0 }
    {
        put(table, HEAD, COUNTER_FIELDS + KIND, self.0);
    }

    pub(crate) fn end(table: &[u64], m: u64) -> Self
        requires has_row { HasRow table.now m }
        requires of_kind { IsOfKind KIND table.now m }
        ensures { result.0 ≡ end_time table.now m }
    {
        TimeOf(get(table, m, END_FIELD))
    }

    pub(crate) fn set_end(self, table: &mut [u64], m: u64)
        requires has_row { HasRow table.old m }
        requires of_kind { IsOfKind KIND table.old m }
        ensures { table.new ≡ with_end_time table.old m self.entry.0 }
    {
        put(table, m, END_FIELD, self.0);
    }

    // A word of a row of such end times.
    pub(crate) fn in_row(end: u64) -> Self
        ensures { result.0 ≡ end }
    {
        TimeOf(end)
    }

    // The newest end time of p's children for the account.
    pub(crate) fn newest(table: &[u64], p: u64, k: u64) -> Self
        requires has_row { HasRow table.now p }
        requires account { IsAccount k }
        requires parent_of { IsParentOf KIND p }
        ensures { result.0 ≡ newest table.now p k }
    {
        TimeOf(get(table, p, NEWEST_FIELDS + k))
    }

    pub(crate) fn set_newest(self, table: &mut [u64], p: u64, k: u64)
        requires has_row { HasRow table.old p }
        requires account { IsAccount k }
        requires parent_of { IsParentOf KIND p }
        ensures { table.new ≡ with_newest table.old p k self.entry.0 }
    {
        put(table, p, NEWEST_FIELDS + k, self.0);
    }

    // A read entry is one more than the topaction time; the subaction time stands as it is.
    pub(crate) fn read(table: &[u64], n: u64, k: u64) -> Self
        requires has_row { HasRow table.now n }
        requires account { IsAccount k }
        requires has_read { HasRead table.now n k }
        ensures read { result.0 ≡ read_time table.now KIND n k }
        ensures room { HasRoom KIND result.0 }
    {
        if KIND == TOP {
            TimeOf(get(table, n, READ_FIELDS + k) - 1)
        } else {
            TimeOf(get(table, n, SUB_TIME_FIELDS + k))
        }
    }

    pub(crate) fn set_read(self, table: &mut [u64], n: u64, k: u64)
        requires has_row { HasRow table.old n }
        requires account { IsAccount k }
        requires room { HasRoom KIND self.0 }
        ensures { table.new ≡ with_read_time table.old KIND n k self.entry.0 }
    {
        if KIND == TOP {
            put(table, n, READ_FIELDS + k, self.0 + 1);
        } else {
            put(table, n, SUB_TIME_FIELDS + k, self.0);
        }
    }

    // The smaller of the time and that of n's read of the account, and the larger; where there is no read, the time.
    pub(crate) fn sooner_read(self, table: &[u64], n: u64, k: u64) -> Self
        requires has_row { HasRow table.now n }
        requires account { IsAccount k }
        ensures { result.0 ≡ sooner_read table.now KIND n k self.entry.0 }
    {
        if !has_read(table, n, k) {
            return self;
        }
        self.min(Self::read(table, n, k))
    }

    pub(crate) fn later_read(self, table: &[u64], n: u64, k: u64) -> Self
        requires has_row { HasRow table.now n }
        requires account { IsAccount k }
        ensures { result.0 ≡ later_read table.now KIND n k self.entry.0 }
    {
        let read = if has_read(table, n, k) {
            Self::read(table, n, k)
        } else {
            Self::no_end()
        };
        self.max(read)
    }
}
