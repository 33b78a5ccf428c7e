// Who stands in a queue, with what verdict, and who is ready.
ghost use Rattle.std.specs.Prelude.{◌≡◌};
ghost use Rattle.rules.specs.Action.{kind_number};
ghost use Rattle.rules.specs.Kind.{top_kind, sub_kind};
ghost use Rattle.rules.specs.Queue.{is_queued, is_queued_failed, is_queued_ready, is_waiting, head_of, is_head_ready};
ghost use Rattle.rows.specs.Row.{numbered};
ghost use Rattle.queue.specs.Line.{HasLine, StandsOnce, position_of};

use rows::entries::{entry_number, entry_readiness, entry_verdict, queue_length};
use rules::action::Kind;
use rules::queue::{FIRST_POSITION, UNREADY, Verdict};

// The first position of n.
pub(crate) fn position_of(table: &[u64], h: Kind, n: u64) -> Option<u64>
    requires { HasLine table.now (kind_number h) }
    ensures { result ≡ numbered (position_of table.now (kind_number h) n) }
{
    let tail = queue_length(table, h);
    (FIRST_POSITION..tail + 1).find(|i| n == entry_number(table, h, *i))
}

pub fn is_queued(table: &[u64], h: Kind, n: u64) -> bool
    requires { HasLine table.now (kind_number h) }
    ensures { result ≡ is_queued table.now (kind_number h) n }
{
    position_of(table, h, n).is_some()
}

// It stands in one queue or in the other.
pub fn is_waiting(table: &[u64], n: u64) -> bool
    requires has_line { HasLine table.now top_kind }
    requires has_line_2 { HasLine table.now sub_kind }
    ensures { result ≡ is_waiting table.now n }
{
    is_queued(table, Kind::Top, n) || is_queued(table, Kind::Sub, n)
}

// The verdict at n's first position is the only one where n stands once.
pub fn is_queued_failed(table: &[u64], h: Kind, n: u64) -> bool
    requires has_line { HasLine table.now (kind_number h) }
    requires stands_once { StandsOnce table.now (kind_number h) }
    ensures { result ≡ is_queued_failed table.now (kind_number h) n }
{
    match position_of(table, h, n) {
        Some(i) => entry_verdict(table, h, i) != u64::from(Verdict::Good),
        None => false,
    }
}

pub fn is_queued_ready(table: &[u64], h: Kind, n: u64) -> bool
    requires has_line { HasLine table.now (kind_number h) }
    requires stands_once { StandsOnce table.now (kind_number h) }
    ensures { result ≡ is_queued_ready table.now (kind_number h) n }
{
    match position_of(table, h, n) {
        Some(i) => entry_readiness(table, h, i) != UNREADY,
        None => false,
    }
}

// The action at the head.
pub fn head(table: &[u64], h: Kind) -> u64
    requires { HasLine table.now (kind_number h) }
    ensures { result ≡ head_of table.now (kind_number h) }
{
    entry_number(table, h, FIRST_POSITION)
}

// The queue is not empty, and its head is ready.
pub fn is_head_ready(table: &[u64], h: Kind) -> bool
    requires { HasLine table.now (kind_number h) }
    ensures { result ≡ is_head_ready table.now (kind_number h) }
{
    queue_length(table, h) >= FIRST_POSITION && entry_readiness(table, h, FIRST_POSITION) != UNREADY
}
