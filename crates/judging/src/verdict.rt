// The verdict of an action that enters its queue.
ghost use Rattle.std.specs.Prelude.{◌≡◌};
ghost use Rattle.rules.specs.Sound.{IsGiven, IsLiveAction, Sound};
ghost use Rattle.rules.specs.Action.{kind_number};
ghost use Rattle.rules.specs.Settled.{verdict_word};
ghost use Rattle.rules.specs.Queue.{entry_number};
ghost use Rattle.rules.specs.Verdict.{meets, is_met_by, is_met_in_queue, verdict_of};
ghost use Rattle.rows.specs.Row.{HasRow};
ghost use Rattle.judging.specs.Asked.{IsPosition};

use rows::entries::{entry_number, queue_length};
use rows::fields::parent;
use rules::action::Kind;
use rules::queue::{FIRST_POSITION, Verdict};
use rules::store::ACCOUNTS;
use validation::ahead::is_read_ahead;
use validation::verdict::clash_of;

fn meets(table: &[u64], n: u64, m: u64) -> bool
    requires has_row { HasRow table.now n }
    requires has_row_2 { HasRow table.now m }
    ensures { result ≡ meets table.now n m }
{
    (0..ACCOUNTS).any(|k| is_read_ahead(table, m, n, k))
}

#[tactic(auto, unfolding(rules::specs::Verdict::is_met_by))]
fn is_met_by(table: &[u64], n: u64, m: u64) -> bool
    requires has_row { HasRow table.now n }
    requires has_row_2 { HasRow table.now m }
    ensures { result ≡ is_met_by table.now n m }
{
    parent(table, m) == parent(table, n) && meets(table, n, m)
}

// The one who waits at position i is.
fn is_met_at(table: &[u64], h: Kind, n: u64, i: u64) -> bool
    requires sound { Sound table.now }
    requires given { IsGiven table.now n }
    requires position { IsPosition table.now (kind_number h) i }
    ensures { result ≡ is_met_by table.now n (entry_number table.now (kind_number h) i) }
{
    is_met_by(table, n, entry_number(table, h, i))
}

// One of those who wait has written what n has read, and is a sibling of n.
fn is_met_in_queue(table: &[u64], h: Kind, n: u64) -> bool
    requires sound { Sound table.now }
    requires given { IsGiven table.now n }
    ensures { result ≡ is_met_in_queue table.now (kind_number h) n }
{
    let tail = queue_length(table, h);
    (FIRST_POSITION..tail + 1).any(|i| is_met_at(table, h, n, i))
}

#[tactic(auto, unfolding(rules::specs::Verdict::verdict_of))]
pub(crate) fn verdict(table: &[u64], h: Kind, n: u64) -> Verdict
    requires sound { Sound table.now }
    requires live_action { IsLiveAction table.now n }
    ensures { verdict_word result ≡ verdict_of table.now (kind_number h) n }
{
    if clash_of(table, n).is_some() || is_met_in_queue(table, h, n) {
        Verdict::Failed
    } else {
        Verdict::Good
    }
}
