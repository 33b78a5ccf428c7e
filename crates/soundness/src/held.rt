// The newest end times that the records of a parent make, of all accounts, by one pass over the actions.
ghost use Rattle.std.specs.Prelude.{◌≡◌};
ghost use Rattle.rows.specs.Row.{HasRow, Scannable};
ghost use Rattle.soundness.specs.Held.{is_committed_child_of, counted_in, ends_held};

use rows::fields::{highest, is_committed, parent};
use rows::times::ends::{ENDS_LENGTH, raise_ends};
use rules::table::NO_END;

// The parent first: most actions are another's children.
fn is_committed_child(table: &[u64], p: u64, m: u64) -> bool
    requires { HasRow table.now m }
    ensures { result ≡ is_committed_child_of table.now p m }
{
    parent(table, m) == p && is_committed(table, m)
}

// Its write set isn't tested: an empty one raises nothing.
fn count_in(ends: &mut [u64; ENDS_LENGTH], table: &[u64], p: u64, m: u64)
    requires { HasRow table.now m }
    ensures { ends.new ≡ counted_in table.now p m ends.old }
{
    if is_committed_child(table, p, m) {
        raise_ends(ends, table, m);
    }
}

pub(crate) fn ends_held(table: &[u64], p: u64) -> [u64; ENDS_LENGTH]
    requires { Scannable table.now }
    ensures { result ≡ ends_held table.now p }
{
    let last = highest(table);
    let mut ends = [NO_END; ENDS_LENGTH];
    for m in 1..last + 1 {
        count_in(&mut ends, table, p, m);
    }
    ends
}
