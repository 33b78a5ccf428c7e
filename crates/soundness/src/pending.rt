// The clause on pending sums, of one action.
ghost use Rattle.std.specs.Prelude.{◌≡◌, ◌||◌, eqb};
ghost use Rattle.rules.specs.Range.{all};
ghost use Rattle.rules.specs.Card.{IsCharge, charge_accounts};
ghost use Rattle.rules.specs.Table.{has_written, pending_word};
ghost use Rattle.rules.specs.Sound.{has_pending_written};
ghost use Rattle.rows.specs.Row.{HasRow};

use rows::fields::{has_written, pending};
use rules::store::{ACCOUNTS, FIRST_CHARGE};
use rules::table::NO_SUM;

// The words as one, so that the loop has no branch.
fn has_no_pending(table: &[u64], n: u64) -> bool
    requires { HasRow table.now n }
    ensures { result ≡ all (λ k. eqb (pending_word table.now n k) 0) charge_accounts }
{
    (FIRST_CHARGE..ACCOUNTS).fold(NO_SUM, |joined, k| joined | pending(table, n, k)) == NO_SUM
}

// The sum first: most of them are 0.
fn is_pending_written(table: &[u64], n: u64, k: u64) -> bool
    requires has_row { HasRow table.now n }
    requires charge { IsCharge k }
    ensures { result ≡ (has_written table.now n k || eqb (pending_word table.now n k) 0) }
{
    pending(table, n, k) == NO_SUM || has_written(table, n, k)
}

fn all_pending_written(table: &[u64], n: u64) -> bool
    requires { HasRow table.now n }
    ensures { result ≡ has_pending_written table.now n }
{
    (FIRST_CHARGE..ACCOUNTS).all(|k| is_pending_written(table, n, k))
}

// Most actions have no pending sum at all.
#[tactic(auto, using(crate::proofs::PendingWords::no_sum_written))]
pub(crate) fn has_pending_written(table: &[u64], n: u64) -> bool
    requires { HasRow table.now n }
    ensures { result ≡ has_pending_written table.now n }
{
    has_no_pending(table, n) || all_pending_written(table, n)
}
