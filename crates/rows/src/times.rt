// Times of either kind. What is asked of an action's times goes by the action's kind to the one type or to the other; a time of
// one kind and a time of the other are nowhere compared.
pub mod ends;
pub mod newest;
pub mod of_kind;

ghost use Rattle.std.specs.Prelude.{◌≡◌, ◌&&◌, ◌+◌, eqb, leb, ltb};
ghost use Rattle.rules.specs.Card.{IsAccount};
ghost use Rattle.rules.specs.Action.{kind_number};
ghost use Rattle.rules.specs.Kind.{top_kind};
ghost use Rattle.rules.specs.Table.{counter, with_counter, last_time, end_time, with_end_time, kind_of, read_time};
ghost use Rattle.rules.specs.Step.{with_read_now};
ghost use Rattle.rows.specs.Row.{HasRow};
ghost use Rattle.rows.specs.Times.{kind_in, number_in, IsTime, sooner_read, later_read, AreOfOneKind, IsOfKindOf, HasRead, CanCount};

use crate::fields::kind_of;
use crate::times::of_kind::{SubTime, TopTime};
use crate::words::put;
use rules::action::Kind;
use rules::table::{END_FIELD, FIRST_END, LAST_TIME, NO_END};

#[derive(Clone, Copy)]
pub enum Time {
    Top(TopTime),
    Sub(SubTime),
}

// As a number, for an answer.
impl From<Time> for u64 {
    ghost from_gives = { λ t number. number ≡ number_in t };

    fn from(t: Time) -> u64 {
        match t {
            Time::Top(t) => u64::from(t),
            Time::Sub(t) => u64::from(t),
        }
    }
}

pub fn counter(table: &[u64], h: Kind) -> Time
    requires { HasRow table.now 0 }
    ensures { IsTime result (kind_number h) (counter table.now (kind_number h)) }
{
    match h {
        Kind::Top => Time::Top(TopTime::counter(table)),
        Kind::Sub => Time::Sub(SubTime::counter(table)),
    }
}

pub fn end_of(table: &[u64], n: u64) -> Time
    requires { HasRow table.now n }
    ensures { IsTime result (kind_of table.now n) (end_time table.now n) }
{
    match kind_of(table, n) {
        Kind::Top => Time::Top(TopTime::end(table, n)),
        Kind::Sub => Time::Sub(SubTime::end(table, n)),
    }
}

pub fn ends_after(table: &[u64], t: Time, m: u64) -> bool
    requires has_row { HasRow table.now m }
    requires of_kind_of { IsOfKindOf t table.now m }
    ensures { result ≡ ltb (number_in t) (end_time table.now m) }
{
    match t {
        Time::Top(t) => t < TopTime::end(table, m),
        Time::Sub(t) => t < SubTime::end(table, m),
    }
}

// The end times of two actions of one kind.
pub fn ends_before(table: &[u64], a: u64, b: u64) -> bool
    requires has_row { HasRow table.now a }
    requires has_row_2 { HasRow table.now b }
    requires are_of_one_kind { AreOfOneKind table.now a b }
    ensures { result ≡ ltb (end_time table.now a) (end_time table.now b) }
{
    ends_after(table, end_of(table, a), b)
}

pub fn end_together(table: &[u64], a: u64, b: u64) -> bool
    requires has_row { HasRow table.now a }
    requires has_row_2 { HasRow table.now b }
    requires are_of_one_kind { AreOfOneKind table.now a b }
    ensures { result ≡ eqb (end_time table.now a) (end_time table.now b) }
{
    match kind_of(table, a) {
        Kind::Top => TopTime::end(table, a) == TopTime::end(table, b),
        Kind::Sub => SubTime::end(table, a) == SubTime::end(table, b),
    }
}

// n's read of the account is from before the end of m: the time of the read is that of m's kind.
pub fn read_before_end(table: &[u64], n: u64, m: u64, k: u64) -> bool
    requires has_row { HasRow table.now n }
    requires has_row_2 { HasRow table.now m }
    requires account { IsAccount k }
    requires has_read { HasRead table.now n k }
    ensures { result
        ≡ ltb (read_time table.now (kind_of table.now m) n k) (end_time table.now m) }
{
    match kind_of(table, m) {
        Kind::Top => TopTime::read(table, n, k) < TopTime::end(table, m),
        Kind::Sub => SubTime::read(table, n, k) < SubTime::end(table, m),
    }
}

// The smaller of a time and that of n's read of the account, of the same kind, and the larger; where there is no read, the time.
pub fn sooner_read(table: &[u64], n: u64, k: u64, t: Time) -> Time
    requires has_row { HasRow table.now n }
    requires account { IsAccount k }
    ensures { IsTime result (kind_in t) (sooner_read table.now (kind_in t) n k (number_in t)) }
{
    match t {
        Time::Top(t) => Time::Top(t.sooner_read(table, n, k)),
        Time::Sub(t) => Time::Sub(t.sooner_read(table, n, k)),
    }
}

pub fn later_read(table: &[u64], n: u64, k: u64, t: Time) -> Time
    requires has_row { HasRow table.now n }
    requires account { IsAccount k }
    ensures { IsTime result (kind_in t) (later_read table.now (kind_in t) n k (number_in t)) }
{
    match t {
        Time::Top(t) => Time::Top(t.later_read(table, n, k)),
        Time::Sub(t) => Time::Sub(t.later_read(table, n, k)),
    }
}

// The time is not later than the counter of its kind.
pub fn is_in_time(table: &[u64], t: Time) -> bool
    requires { HasRow table.now 0 }
    ensures { result ≡ leb (number_in t) (counter table.now (kind_in t)) }
{
    match t {
        Time::Top(t) => t <= TopTime::counter(table),
        Time::Sub(t) => t <= SubTime::counter(table),
    }
}

// n's end time is one that an end can have, and in time.
pub fn ends_in_time(table: &[u64], n: u64) -> bool
    requires { HasRow table.now n }
    ensures { result ≡ (leb 1 (end_time table.now n)
        && leb (end_time table.now n) (counter table.now (kind_of table.now n))) }
{
    let end = end_of(table, n);
    u64::from(end) >= FIRST_END && is_in_time(table, end)
}

// So many end times of kind h are left. The counter may be any word, so nothing is added to it.
pub fn has_times_left(table: &[u64], h: Kind, many: u64) -> bool
    requires { HasRow table.now 0 }
    ensures { result ≡ leb (counter table.now (kind_number h) + many) last_time }
{
    many <= LAST_TIME && u64::from(counter(table, h)) <= LAST_TIME - many
}

// The next time of the same kind, and the end time of an action of that kind that has none.
pub fn after(t: Time) -> Time
    requires { CanCount (number_in t) }
    ensures { IsTime result (kind_in t) (number_in t + 1) }
{
    match t {
        Time::Top(t) => Time::Top(t.after()),
        Time::Sub(t) => Time::Sub(t.after()),
    }
}

pub fn no_end(t: Time) -> Time
    ensures { IsTime result (kind_in t) 0 }
{
    match t {
        Time::Top(_) => Time::Top(TopTime::no_end()),
        Time::Sub(_) => Time::Sub(SubTime::no_end()),
    }
}

// The counter of the time's kind.
pub fn set_counter(table: &mut [u64], t: Time)
    requires { HasRow table.old 0 }
    ensures { table.new ≡ with_counter table.old (kind_in t) (number_in t) }
{
    match t {
        Time::Top(t) => t.set_counter(table),
        Time::Sub(t) => t.set_counter(table),
    }
}

pub fn set_end(table: &mut [u64], n: u64, t: Time)
    requires has_row { HasRow table.old n }
    requires of_kind_of { IsOfKindOf t table.old n }
    ensures { table.new ≡ with_end_time table.old n (number_in t) }
{
    match t {
        Time::Top(t) => t.set_end(table, n),
        Time::Sub(t) => t.set_end(table, n),
    }
}

// No end time yet, of whichever kind.
pub fn clear_end(table: &mut [u64], n: u64)
    requires { HasRow table.old n }
    ensures { table.new ≡ with_end_time table.old n 0 }
{
    put(table, n, END_FIELD, NO_END);
}

// The account in n's read set, with both counters as its times.
pub fn set_read_now(table: &mut [u64], n: u64, k: u64)
    requires has_row { HasRow table.old n }
    requires account { IsAccount k }
    requires can_count { CanCount (counter table.old top_kind) }
    ensures { table.new ≡ with_read_now table.old n k }
{
    let top = TopTime::counter(table);
    let sub = SubTime::counter(table);
    top.set_read(table, n, k);
    sub.set_read(table, n, k);
}
