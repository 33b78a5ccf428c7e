// The words of a queue by name: its length, and the entry at a position.
ghost use Rattle.std.specs.Prelude.{◌≡◌};
ghost use Rattle.rules.specs.Action.{kind_number};
ghost use Rattle.rules.specs.Queue.{queue_length, with_queue_length, entry_number, entry_verdict, entry_readiness, with_entry};
ghost use Rattle.rows.specs.Row.{HasRow};

use crate::words::{get, put};
use rules::action::Kind;
use rules::queue::{ENTRY_FIELDS, ENTRY_WIDTH, LENGTH_FIELDS, READY_AT, VERDICT_AT};
use rules::table::HEAD;

pub fn queue_length(table: &[u64], h: Kind) -> u64
    requires { HasRow table.now 0 }
    ensures { result ≡ queue_length table.now (kind_number h) }
{
    get(table, HEAD, LENGTH_FIELDS + u64::from(h))
}

pub fn set_queue_length(table: &mut [u64], h: Kind, v: u64)
    requires { HasRow table.old 0 }
    ensures { table.new ≡ with_queue_length table.old (kind_number h) v }
{
    put(table, HEAD, LENGTH_FIELDS + u64::from(h), v);
}

// The number of the action that waits at position i.
pub fn entry_number(table: &[u64], h: Kind, i: u64) -> u64
    requires { HasRow table.now i }
    ensures { result ≡ entry_number table.now (kind_number h) i }
{
    get(table, i, ENTRY_FIELDS + ENTRY_WIDTH * u64::from(h))
}

pub fn entry_verdict(table: &[u64], h: Kind, i: u64) -> u64
    requires { HasRow table.now i }
    ensures { result ≡ entry_verdict table.now (kind_number h) i }
{
    get(
        table,
        i,
        ENTRY_FIELDS + ENTRY_WIDTH * u64::from(h) + VERDICT_AT,
    )
}

pub fn entry_readiness(table: &[u64], h: Kind, i: u64) -> u64
    requires { HasRow table.now i }
    ensures { result ≡ entry_readiness table.now (kind_number h) i }
{
    get(
        table,
        i,
        ENTRY_FIELDS + ENTRY_WIDTH * u64::from(h) + READY_AT,
    )
}

#[tactic(auto, unfolding(rules::specs::Queue::with_entry))]
pub fn put_entry(table: &mut [u64], h: Kind, i: u64, number: u64, verdict: u64, readiness: u64)
    requires { HasRow table.old i }
    ensures { table.new
        ≡ with_entry table.old (kind_number h) i (record { number = number; verdict = verdict; readiness = readiness }) }
{
    let first = ENTRY_FIELDS + ENTRY_WIDTH * u64::from(h);
    put(table, i, first, number);
    put(table, i, first + VERDICT_AT, verdict);
    put(table, i, first + READY_AT, readiness);
}
