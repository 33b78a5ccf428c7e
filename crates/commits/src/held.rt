// What the store or an action holds for a charge account, where a commit under it adds its sum.
ghost use Rattle.std.specs.Prelude.{◌≡◌};
ghost use Rattle.rules.specs.Amount.{amount_of};
ghost use Rattle.rules.specs.Card.{IsBase, IsCharge};
ghost use Rattle.rules.specs.Held.{held_sum};
ghost use Rattle.rows.specs.Row.{HasRow};

use amounts::bytes::word_at;
use rows::fields::pending;
use rules::table::STORE;
use stores::place::base_place;

// The word of the base amount, or of p's pending sum.
pub(crate) fn held_word(table: &[u64], base: &[u8], p: u64, k: u64) -> u64
    requires has_row { HasRow table.now p }
    requires base { IsBase base.now }
    requires charge { IsCharge k }
    ensures { amount_of result ≡ held_sum table.now base.now p k }
{
    if p == STORE {
        return word_at(base, base_place(k));
    }
    pending(table, p, k)
}
