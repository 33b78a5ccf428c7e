// Going up the parents.
ghost use Rattle.std.specs.Prelude.{◌≡◌};
ghost use Rattle.rules.specs.Card.{IsPlain};
ghost use Rattle.rules.specs.Walk.{Climbs, is_at_or_below, is_aborted_by};
ghost use Rattle.rules.specs.Sound.{IsGiven};
ghost use Rattle.rules.specs.Nearest.{version};
ghost use Rattle.ancestry.specs.Ancestry.{LiveClimb, Readable, HasMovesLeft, counted_on};

use rows::fields::{has_written, is_live, parent};
use rules::Version;
use rules::table::{NO_MOVES, STORE};

// The nearest version seen from n, after the moves already made on the way there.
fn climb(table: &[u64], n: u64, k: u64, moves: u64) -> Version
    requires readable { Readable table.now n k }
    requires plain { IsPlain k }
    requires has_moves_left { HasMovesLeft table.now n k moves }
    ensures { result ≡ counted_on moves (version table.now n k) }
{
    if n == STORE {
        return Version {
            holder: STORE,
            moves,
        };
    }
    if has_written(table, n, k) {
        return Version { holder: n, moves };
    }
    climb(table, parent(table, n), k, moves + 1)
}

// The nearest version: its holder, and the moves up to it, by one walk. (Of a charge account it is always the base card:
// charge.rt.)
pub fn nearest(table: &[u64], n: u64, k: u64) -> Version
    requires readable { Readable table.now n k }
    requires plain { IsPlain k }
    ensures { result ≡ version table.now n k }
{
    climb(table, n, k, NO_MOVES)
}

// Action m is a, or one of its parents is.
pub fn is_at_or_below(table: &[u64], a: u64, m: u64) -> bool
    requires live_climb { LiveClimb table.now }
    requires given { IsGiven table.now m }
    requires climbs { Climbs table.now m }
    ensures { result ≡ is_at_or_below table.now a m }
{
    let mut at = m;
    while at != STORE {
        if at == a {
            return true;
        }
        at = parent(table, at);
    }
    false
}

// An abort of a reaches action m.
pub fn is_aborted_by(table: &[u64], a: u64, m: u64) -> bool
    requires live_climb { LiveClimb table.now }
    requires given { IsGiven table.now m }
    ensures { result ≡ is_aborted_by table.now a m }
{
    is_live(table, m) && is_at_or_below(table, a, m)
}
