// An action's total for a charge account.
ghost use Rattle.std.specs.Prelude.{◌≡◌};
ghost use Rattle.rules.specs.Card.{IsCharge};
ghost use Rattle.rules.specs.Table.{total_of};
ghost use Rattle.amounts.specs.Sum.{value_of};
ghost use Rattle.rows.specs.Row.{HasRow};

use amounts::sum::{Sum, of_word, plus};
use rows::fields::{kept, own_adds};

// Its own adds, and what is kept of its committed children.
pub(crate) fn total(table: &[u64], n: u64, k: u64) -> Sum
    requires has_row { HasRow table.now n }
    requires charge { IsCharge k }
    ensures { value_of result ≡ total_of table.now n k }
{
    plus(of_word(own_adds(table, n, k)), kept(table, n, k))
}
