// The clauses on the queues: their lengths, and who waits there.
ghost use Rattle.std.specs.Prelude.{◌≡◌, ◌+◌, ◌≤◌};
ghost use Rattle.rules.specs.Range.{all};
ghost use Rattle.rules.specs.Action.{kind_number};
ghost use Rattle.rules.specs.Kind.{kinds};
ghost use Rattle.rules.specs.Table.{most_actions};
ghost use Rattle.rules.specs.Queue.{queue_length};
ghost use Rattle.rules.specs.Sound.{may_wait, are_distinct, queue_numbers, is_sound_queue};
ghost use Rattle.rows.specs.Row.{HasRow, Scannable};
ghost use Rattle.soundness.specs.Positions.{stands_from};

use ancestry::children::has_live_child;
use rows::entries::{entry_number, queue_length};
use rows::fields::{highest, is_live, kind_of};
use rules::action::Kind;
use rules::queue::FIRST_POSITION;
use rules::table::{MOST_ACTIONS, STORE};

// Any word may stand in an entry, so its row is looked at only where it is an action's number.
#[tactic(auto, unfolding(rules::specs::Sound::may_wait))]
fn may_wait(table: &[u64], h: Kind, n: u64) -> bool
    requires { Scannable table.now }
    ensures { result ≡ may_wait table.now (kind_number h) n }
{
    n != STORE
        && n <= highest(table)
        && is_live(table, n)
        && kind_of(table, n) == h
        && !has_live_child(table, n)
}

fn all_may_wait(table: &[u64], h: Kind) -> bool
    requires scannable { Scannable table.now }
    requires h_bound { queue_length table.now (kind_number h) ≤ most_actions }
    ensures { result ≡ all (may_wait table.now (kind_number h)) (queue_numbers table.now (kind_number h)) }
{
    let tail = queue_length(table, h);
    (FIRST_POSITION..tail + 1).all(|i| may_wait(table, h, entry_number(table, h, i)))
}

// The number at position i stands at a later one too.
fn stands_again(table: &[u64], h: Kind, i: u64) -> bool
    requires has_row { HasRow table.now i }
    requires h_bound { queue_length table.now (kind_number h) ≤ most_actions }
    ensures { result ≡ stands_from table.now (kind_number h) i (i + 1) }
{
    let n = entry_number(table, h, i);
    let tail = queue_length(table, h);
    (i + 1..tail + 1).any(|j| n == entry_number(table, h, j))
}

fn are_distinct(table: &[u64], h: Kind) -> bool
    requires has_row { HasRow table.now 0 }
    requires h_bound { queue_length table.now (kind_number h) ≤ most_actions }
    ensures { result ≡ are_distinct (queue_numbers table.now (kind_number h)) }
{
    let tail = queue_length(table, h);
    (FIRST_POSITION..tail + 1).all(|i| !stands_again(table, h, i))
}

#[tactic(auto, unfolding(rules::specs::Sound::is_sound_queue))]
fn is_sound_queue(table: &[u64], h: Kind) -> bool
    requires { Scannable table.now }
    ensures { result ≡ is_sound_queue table.now (kind_number h) }
{
    queue_length(table, h) <= MOST_ACTIONS && all_may_wait(table, h) && are_distinct(table, h)
}

#[tactic(auto, using(crate::proofs::BothKinds::both_kinds))]
pub(crate) fn are_sound_queues(table: &[u64]) -> bool
    requires { Scannable table.now }
    ensures { result ≡ all (is_sound_queue table.now) kinds }
{
    is_sound_queue(table, Kind::Top) && is_sound_queue(table, Kind::Sub)
}
