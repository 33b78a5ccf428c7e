// The way up to the store: whether it leads there, in any table.
ghost use Rattle.std.specs.Prelude.{◌≡◌};
ghost use Rattle.rules.specs.Table.{most_actions, parent_of};
ghost use Rattle.rules.specs.Walk.{climbs};
ghost use Rattle.rows.specs.Row.{HasRow};

use rows::fields::parent;
use rules::table::{MOST_ACTIONS, STORE};

// Any word may stand for a parent on the way, so its row is looked at only where there is one.
fn parent_in(table: &[u64], n: u64) -> u64
    requires { HasRow table.now 0 }
    ensures { result ≡ parent_of table.now n }
{
    if MOST_ACTIONS < n {
        return STORE;
    }
    parent(table, n)
}

// As many moves as there can be actions are enough, unless the way leads round in a ring.
pub fn reaches_store(table: &[u64], n: u64) -> bool
    requires { HasRow table.now 0 }
    ensures { result ≡ climbs (parent_of table.now) most_actions n }
{
    let mut at = n;
    for _ in 0..MOST_ACTIONS {
        if at == STORE {
            return true;
        }
        at = parent_in(table, at);
    }
    at == STORE
}
