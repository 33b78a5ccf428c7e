// The changes of a queue: an action put at the tail, marked as ready, and taken out.
ghost use Rattle.std.specs.Prelude.{◌≡◌};
ghost use Rattle.rules.specs.Action.{kind_number};
ghost use Rattle.rules.specs.Queue.{entry_at, with_entry, with_tail, with_ready, without_below};
ghost use Rattle.rows.specs.Row.{HasRow};
ghost use Rattle.ancestry.specs.Ancestry.{LiveClimb};
ghost use Rattle.queue.specs.Line.{HasLine, HasRoom, StandsOnce, AreKnown};

use crate::find::position_of;
use ancestry::walk::is_aborted_by;
use rows::entries::{
    entry_number, entry_readiness, entry_verdict, put_entry, queue_length, set_queue_length,
};
use rules::action::Kind;
use rules::queue::{FIRST_POSITION, READY, UNREADY};

// n at the tail, with the verdict that is settled, not ready. The verdict is a word here: an entry may hold any.
pub fn put_tail(table: &mut [u64], h: Kind, n: u64, verdict: u64)
    requires has_line { HasLine table.old (kind_number h) }
    requires has_room { HasRoom table.old (kind_number h) }
    ensures { table.new ≡ with_tail table.old (kind_number h) n verdict }
{
    let tail = queue_length(table, h) + 1;
    put_entry(table, h, tail, n, verdict, UNREADY);
    set_queue_length(table, h, tail);
}

// The entry at n's first position is the only one where n stands once.
pub fn mark_ready(table: &mut [u64], h: Kind, n: u64)
    requires has_line { HasLine table.old (kind_number h) }
    requires stands_once { StandsOnce table.old (kind_number h) }
    ensures { table.new ≡ with_ready table.old (kind_number h) n }
{
    if let Some(i) = position_of(table, h, n) {
        let verdict = entry_verdict(table, h, i);
        put_entry(table, h, i, n, verdict, READY);
    }
}

// The entry at one position put at another.
fn move_entry(table: &mut [u64], h: Kind, from: u64, to: u64)
    requires has_row { HasRow table.old from }
    requires has_row_2 { HasRow table.old to }
    ensures { table.new ≡ with_entry table.old (kind_number h) to (entry_at table.old (kind_number h) from) }
{
    let number = entry_number(table, h, from);
    let verdict = entry_verdict(table, h, from);
    let readiness = entry_readiness(table, h, from);
    put_entry(table, h, to, number, verdict, readiness);
}

// Those whom an abort of n reaches leave, and the others close up.
pub fn take_out(table: &mut [u64], h: Kind, n: u64)
    requires has_line { HasLine table.old (kind_number h) }
    requires live_climb { LiveClimb table.old }
    requires are_known { AreKnown table.old (kind_number h) }
    ensures { table.new ≡ without_below table.old (kind_number h) n }
{
    let tail = queue_length(table, h);
    let mut kept = 0;
    for i in FIRST_POSITION..tail + 1 {
        let m = entry_number(table, h, i);
        if !is_aborted_by(table, n, m) {
            kept += 1;
            move_entry(table, h, i, kept);
        }
    }
    set_queue_length(table, h, kept);
}
