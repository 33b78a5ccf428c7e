// All turns of a commit, from the last account down.
ghost use Rattle.std.specs.Prelude.{◌≡◌};
ghost use Rattle.rules.specs.Card.{StoresFit};
ghost use Rattle.rules.specs.Table.{IsAction};
ghost use Rattle.rules.specs.Ledger.{ledger_of};
ghost use Rattle.rules.specs.Commit.{copied_down};
ghost use Rattle.rows.specs.Row.{HasRow, AreTwo};
ghost use Rattle.commits.specs.Fit.{SumsFit};

use crate::turn::copy_one;
use rules::store::{ACCOUNTS, FIRST_ACCOUNT};

// What n's commit under p copies. The order is a rule (RULES 4.8): it decides what one finds between two turns.
pub(crate) fn copy_down(table: &mut [u64], base: &mut [u8], shadow: &mut [u8], n: u64, p: u64)
    requires has_row { HasRow table.old n }
    requires has_row_2 { HasRow table.old p }
    requires action { IsAction n × AreTwo n p }
    requires stores_fit { StoresFit base.old shadow.old }
    requires sums_fit { SumsFit table.old base.old n p }
    ensures { ledger_of table.new base.new shadow.new
        ≡ copied_down (ledger_of table.old base.old shadow.old) n p 0 }
{
    for k in (FIRST_ACCOUNT..ACCOUNTS).rev() {
        copy_one(table, base, shadow, n, p, k);
    }
}
