// Newest end times: those that the table keeps for a parent, and such times in a row of their own, a word for each account. All in
// a row are end times of one parent's children, and so of one kind.
ghost use Rattle.std.specs.Prelude.{◌≡◌, max, eqb, leb, ltb, get_or};
ghost use Rattle.std.specs.Bool.{beq};
ghost use Rattle.rules.specs.Range.{all};
ghost use Rattle.rules.specs.Card.{IsAccount, accounts};
ghost use Rattle.rules.specs.Kind.{kind_under};
ghost use Rattle.rules.specs.Table.{newest, read_time};
ghost use Rattle.rules.specs.Stale.{is_known_stale};
ghost use Rattle.rows.specs.Row.{HasRow};
ghost use Rattle.rows.specs.Times.{number_in, HasRead};
ghost use Rattle.rows.specs.Ends.{has_no_newest, raised_end, raised_ends, IsOfChildrenOf, IsEndOf};

use crate::fields::{has_written, kind_under};
use crate::times::newest::read_before_newest;
use crate::times::of_kind::{SubTime, TopTime};
use crate::times::{Time, end_of};
use crate::words::get;
use rules::action::Kind;
use rules::store::ACCOUNTS;
use rules::table::{NEWEST_FIELDS, NO_END};

// The words of a row: one for each account.
pub const ENDS_LENGTH: usize = 32;

fn newest(table: &[u64], p: u64, k: u64) -> u64
    requires has_row { HasRow table.now p }
    requires account { IsAccount k }
    ensures { result ≡ newest table.now p k }
{
    get(table, p, NEWEST_FIELDS + k)
}

// The words as one, so that the loop has no branch.
pub fn has_no_newest(table: &[u64], p: u64) -> bool
    requires { HasRow table.now p }
    ensures { result ≡ has_no_newest table.now p }
{
    let mut joined = NO_END;
    for k in 0..ACCOUNTS {
        joined |= newest(table, p, k);
    }
    joined == NO_END
}

// p's newest end time for the account is this.
pub fn is_newest(table: &[u64], p: u64, k: u64, end: u64) -> bool
    requires has_row { HasRow table.now p }
    requires account { IsAccount k }
    ensures { result ≡ eqb (newest table.now p k) end }
{
    newest(table, p, k) == end
}

// p's newest end time for the account is not later than a time of the same kind.
pub fn is_newest_by(table: &[u64], p: u64, k: u64, t: Time) -> bool
    requires has_row { HasRow table.now p }
    requires account { IsAccount k }
    requires of_children_of { IsOfChildrenOf t p }
    ensures { result ≡ leb (newest table.now p k) (number_in t) }
{
    match t {
        Time::Top(t) => TopTime::newest(table, p, k) <= t,
        Time::Sub(t) => SubTime::newest(table, p, k) <= t,
    }
}

// The later of two end times of one kind, the second of which stands in a row.
fn later_end(own: Time, end: u64) -> u64
    ensures { result ≡ max (number_in own) end }
{
    match own {
        Time::Top(own) => u64::from(own.max(TopTime::in_row(end))),
        Time::Sub(own) => u64::from(own.max(SubTime::in_row(end))),
    }
}

// Where m, whose end time this is, has written the account, it is counted in.
fn raise_end(ends: &mut [u64; ENDS_LENGTH], table: &[u64], m: u64, k: u64, own: Time)
    requires has_row { HasRow table.now m }
    requires account { IsAccount k }
    requires end_of { IsEndOf table.now m own }
    ensures { ends.new ≡ raised_end table.now m k ends.old }
{
    if has_written(table, m, k) {
        ends[k as usize] = later_end(own, ends[k as usize]);
    }
}

// A branch for each account costs less than to compare all of them: most write sets are small.
pub fn raise_ends(ends: &mut [u64; ENDS_LENGTH], table: &[u64], m: u64)
    requires { HasRow table.now m }
    ensures { ends.new ≡ raised_ends table.now m ends.old }
{
    let own = end_of(table, m);
    for k in 0..ACCOUNTS {
        raise_end(ends, table, m, k, own);
    }
}

// The row is that of p's newest end times. What differs is joined, so that the loop has no branch.
pub fn are_newest(table: &[u64], p: u64, ends: &[u64; ENDS_LENGTH]) -> bool
    requires { HasRow table.now p }
    ensures { result
        ≡ all (λ k. eqb (newest table.now p k) (get_or ends.now k 0)) accounts }
{
    let mut joined = NO_END;
    for k in 0..ACCOUNTS {
        joined |= newest(table, p, k) ^ ends[k as usize];
    }
    joined == NO_END
}

// m's read of the account is from before this end of a child of p's: the time of the read is that of the kind of p's children.
fn read_before_row(table: &[u64], m: u64, p: u64, k: u64, end: u64) -> bool
    requires has_row { HasRow table.now m }
    requires account { IsAccount k }
    requires has_read { HasRead table.now m k }
    ensures { result ≡ ltb (read_time table.now (kind_under p) m k) end }
{
    match kind_under(p) {
        Kind::Top => TopTime::read(table, m, k) < TopTime::in_row(end),
        Kind::Sub => SubTime::read(table, m, k) < SubTime::in_row(end),
    }
}

// m's read of the account is from before p's newest end time exactly where it is from before this end.
pub fn is_told_alike(table: &[u64], p: u64, m: u64, k: u64, end: u64) -> bool
    requires has_row { HasRow table.now p }
    requires has_row_2 { HasRow table.now m }
    requires account { IsAccount k }
    requires has_read { HasRead table.now m k }
    ensures { result
        ≡ beq (is_known_stale table.now p k (read_time table.now (kind_under p) m k))
        (ltb (read_time table.now (kind_under p) m k) end) }
{
    let known = read_before_newest(table, m, p, k);
    let held = read_before_row(table, m, p, k, end);
    known == held
}
