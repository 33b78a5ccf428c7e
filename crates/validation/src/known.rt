// Whether an action has a clash, by the newest end times of its parent: one look for each account, however many records there are.
ghost use Rattle.std.specs.Prelude.{◌≡◌, ◌&&◌};
ghost use Rattle.rules.specs.Card.{IsAccount};
ghost use Rattle.rules.specs.Kind.{kind_under};
ghost use Rattle.rules.specs.Table.{has_read, read_time};
ghost use Rattle.rules.specs.Stale.{is_known_stale, is_known_clash};
ghost use Rattle.rules.specs.Sound.{IsGiven, Sound};
ghost use Rattle.rows.specs.Row.{HasRow};

use rows::fields::{has_read, parent};
use rows::times::newest::read_before_newest;
use rules::store::ACCOUNTS;

// n has read the account and, by p's newest end time, a child of p has written it since.
fn is_known_stale(table: &[u64], n: u64, p: u64, k: u64) -> bool
    requires has_row { HasRow table.now n }
    requires has_row_2 { HasRow table.now p }
    requires account { IsAccount k }
    ensures { result ≡ (has_read table.now n k
        && is_known_stale table.now p k (read_time table.now (kind_under p) n k)) }
{
    has_read(table, n, k) && read_before_newest(table, n, p, k)
}

pub(crate) fn is_known_clash(table: &[u64], n: u64) -> bool
    requires sound { Sound table.now }
    requires given { IsGiven table.now n }
    ensures { result ≡ is_known_clash table.now n }
{
    let p = parent(table, n);
    (0..ACCOUNTS).any(|k| is_known_stale(table, n, p, k))
}
