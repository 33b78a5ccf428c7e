// One account's turn in a commit: the card, or the sum, that its parent gets.
ghost use Rattle.std.specs.Prelude.{◌≡◌, List, ℕ, ◌+ℤ◌};
ghost use Rattle.rules.specs.Card.{IsAccount, IsBase, IsCharge, StoresFit, card_at, shadow_place};
ghost use Rattle.rules.specs.Table.{IsAction, pending_sum};
ghost use Rattle.rules.specs.Ledger.{ledger_of};
ghost use Rattle.rules.specs.Held.{held_sum, with_held_card, with_held_sum};
ghost use Rattle.rules.specs.Commit.{copy_one};
ghost use Rattle.rows.specs.Row.{HasRow};
ghost use Rattle.commits.specs.Fit.{IsHolder, MakesAmount, SumFits};

use crate::held::held_word;
use amounts::bytes::put_word;
use amounts::sum::{of_word, plus};
use rows::fields::{has_written, pending, set_pending};
use rules::store::FIRST_CHARGE;
use rules::table::STORE;
use stores::cards::{copy_card, move_card};
use stores::place::{base_place, shadow_place};

// n's card over p's: in the base store where p is the store, and else in the shadow store, where n's stands too.
fn put_own_card(base: &mut [u8], shadow: &mut [u8], n: u64, p: u64, k: u64)
    requires stores_fit { StoresFit base.old shadow.old }
    requires action { IsAction n }
    requires holder { IsHolder p }
    requires account { IsAccount k }
    ensures { (w : List ℕ) → ledger_of w base.new shadow.new
        ≡ with_held_card (ledger_of w base.old shadow.old) p k
        (card_at shadow.old (shadow_place n k)) }
{
    let own = shadow_place(n, k);
    if p == STORE {
        copy_card(base, base_place(k), shadow, own);
    } else {
        move_card(shadow, shadow_place(p, k), own);
    }
}

// n's pending sum added to what p holds.
fn add_own_sum(table: &mut [u64], base: &mut [u8], n: u64, p: u64, k: u64)
    requires has_row { HasRow table.old n }
    requires has_row_2 { HasRow table.old p }
    requires base { IsBase base.old }
    requires charge { IsCharge k }
    requires makes_amount { MakesAmount table.old base.old n p k }
    ensures { (shadow : List ℕ) → ledger_of table.new base.new shadow
        ≡ with_held_sum (ledger_of table.old base.old shadow) p k
        (held_sum table.old base.old p k +ℤ pending_sum table.old n k) }
{
    let sum = plus(of_word(held_word(table, base, p, k)), pending(table, n, k));
    if p == STORE {
        put_word(base, base_place(k), sum.low);
    } else {
        set_pending(table, p, k, sum.low);
    }
}

// The turn of account k in n's commit under p. Where n hasn't written the account, nothing is copied.
pub(crate) fn copy_one(
    table: &mut [u64],
    base: &mut [u8],
    shadow: &mut [u8],
    n: u64,
    p: u64,
    k: u64,
)
    requires has_row { HasRow table.old n }
    requires has_row_2 { HasRow table.old p }
    requires action { IsAction n × IsAccount k }
    requires stores_fit { StoresFit base.old shadow.old }
    requires sum_fits { SumFits table.old base.old n p k }
    ensures { ledger_of table.new base.new shadow.new
        ≡ copy_one (ledger_of table.old base.old shadow.old) n p k }
{
    if !has_written(table, n, k) {
        return;
    }
    if k < FIRST_CHARGE {
        put_own_card(base, shadow, n, p, k);
    } else {
        add_own_sum(table, base, n, p, k);
    }
}
