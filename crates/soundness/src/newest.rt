// The clause that no newest end time is later than its counter.
ghost use Rattle.std.specs.Prelude.{◌≡◌};
ghost use Rattle.rules.specs.Range.{all};
ghost use Rattle.rules.specs.Table.{actions, parents};
ghost use Rattle.rules.specs.Sound.{is_newest_in_time};
ghost use Rattle.rows.specs.Row.{HasRow, Scannable};
ghost use Rattle.rows.specs.Ends.{has_no_newest};

use rows::fields::{highest, kind_under};
use rows::times::counter;
use rows::times::ends::{has_no_newest, is_newest_by};
use rules::store::ACCOUNTS;
use rules::table::STORE;

fn is_newest_in_time(table: &[u64], p: u64) -> bool
    requires { HasRow table.now p }
    ensures { result ≡ is_newest_in_time table.now p }
{
    let last = counter(table, kind_under(p));
    (0..ACCOUNTS).all(|k| is_newest_by(table, p, k, last))
}

fn all_in_time(table: &[u64]) -> bool
    requires { Scannable table.now }
    ensures { result ≡ all (is_newest_in_time table.now) (parents table.now) }
{
    (STORE..highest(table) + 1).all(|p| is_newest_in_time(table, p))
}

fn have_no_newest(table: &[u64]) -> bool
    requires { Scannable table.now }
    ensures { result ≡ all (has_no_newest table.now) (actions table.now) }
{
    (1..highest(table) + 1).all(|n| has_no_newest(table, n))
}

// Where no subaction has committed no action has such a time; a pass that finds this is quicker than to compare them.
#[tactic(auto, using(crate::proofs::NewestWords::store_alone))]
pub(crate) fn are_newest_in_time(table: &[u64]) -> bool
    requires { Scannable table.now }
    ensures { result ≡ all (is_newest_in_time table.now) (parents table.now) }
{
    if have_no_newest(table) {
        return is_newest_in_time(table, STORE);
    }
    all_in_time(table)
}
