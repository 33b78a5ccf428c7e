// The records of a parent, by rising end time.
ghost use Rattle.std.specs.Prelude.{◌≡◌};
ghost use Rattle.rules.specs.Table.{records};
ghost use Rattle.rules.specs.Search.{is_sooner, next_after};
ghost use Rattle.rows.specs.Row.{HasRow, Scannable, numbered};
ghost use Rattle.rows.specs.Times.{number_in, IsOfKindOf};
ghost use Rattle.validation.specs.NextRecord.{is_next_record, IsTimeUnder, IsChildOrNone, IsAlikeOrNone, number_or_none};

use rows::fields::{highest, parent};
use rows::sets::has_ended;
use rows::times::{Time, ends_after, ends_before};

// m ends after t, and sooner than `next` where there is one.
fn is_sooner(table: &[u64], t: Time, m: u64, next: Option<u64>) -> bool
    requires has_row { HasRow table.now m }
    requires of_kind_of { IsOfKindOf t table.now m }
    requires alike_or_none { IsAlikeOrNone table.now m next }
    ensures { result ≡ is_sooner table.now (number_in t) m (number_or_none next) }
{
    if !ends_after(table, t, m) {
        return false;
    }
    match next {
        Some(next) => ends_before(table, m, next),
        None => true,
    }
}

// The parent first: the end times of another parent's children may be of the other kind.
#[tactic(auto, unfolding(rules::specs::Table::is_record_of))]
fn is_next_record(table: &[u64], p: u64, t: Time, m: u64, next: Option<u64>) -> bool
    requires has_row { HasRow table.now m }
    requires time_under { IsTimeUnder t p }
    requires child_or_none { IsChildOrNone table.now p next }
    ensures { result ≡ is_next_record table.now p (number_in t) m (number_or_none next) }
{
    parent(table, m) == p && is_sooner(table, t, m, next) && has_ended(table, m)
}

// The record of p with the smallest end time above t. The scan goes down, as the definition does.
pub(crate) fn next_record(table: &[u64], p: u64, t: Time) -> Option<u64>
    requires scannable { Scannable table.now }
    requires time_under { IsTimeUnder t p }
    ensures { result ≡ numbered (next_after table.now (number_in t) (records table.now p)) }
{
    let last = highest(table);
    let mut next = None;
    for m in (1..last + 1).rev() {
        if is_next_record(table, p, t, m, next) {
            next = Some(m);
        }
    }
    next
}
