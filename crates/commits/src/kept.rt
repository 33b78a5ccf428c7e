// What is kept of committed children: a commit adds the totals of the one that commits, at its parent or, of a topaction, as
// the store's.
ghost use Rattle.std.specs.Prelude.{◌≡◌};
ghost use Rattle.rules.specs.Amount.{amount_word};
ghost use Rattle.rules.specs.Card.{IsCharge};
ghost use Rattle.rules.specs.Table.{kept_after, with_kept};
ghost use Rattle.rules.specs.Commit.{keep_table};
ghost use Rattle.amounts.specs.Sum.{value_of};
ghost use Rattle.rows.specs.Row.{HasRow, AreTwo};
ghost use Rattle.commits.specs.Fit.{KeepsAmount, KeptFit};

use amounts::sum::{Sum, of_word, plus};
use rows::fields::{kept, own_adds, set_kept};
use rules::store::{ACCOUNTS, FIRST_CHARGE};

// What is kept in row p for the account with n's total: n's own adds, and what is kept in n's row.
pub(crate) fn kept_after(table: &[u64], n: u64, p: u64, k: u64) -> Sum
    requires has_row { HasRow table.now n }
    requires has_row_2 { HasRow table.now p }
    requires charge { IsCharge k }
    ensures { value_of result ≡ kept_after table.now n p k }
{
    let with_own = plus(of_word(kept(table, p, k)), own_adds(table, n, k));
    plus(with_own, kept(table, n, k))
}

fn keep_total(table: &mut [u64], n: u64, p: u64, k: u64)
    requires has_row { HasRow table.old n }
    requires has_row_2 { HasRow table.old p }
    requires charge { IsCharge k }
    requires keeps_amount { KeepsAmount table.old n p k }
    ensures { table.new
        ≡ with_kept table.old p k (amount_word (kept_after table.old n p k)) }
{
    let sum = kept_after(table, n, p, k);
    set_kept(table, p, k, sum.low);
}

// n's totals kept in row p.
pub(crate) fn keep_totals(table: &mut [u64], n: u64, p: u64)
    requires has_row { HasRow table.old n }
    requires has_row_2 { HasRow table.old p }
    requires are_two { AreTwo n p }
    requires kept_fit { KeptFit table.old n p }
    ensures { table.new ≡ keep_table table.old n p }
{
    for k in FIRST_CHARGE..ACCOUNTS {
        keep_total(table, n, p, k);
    }
}
