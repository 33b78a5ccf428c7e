// An abort: whom it reaches leaves its queue and is aborted, and the heads are tried, the topactions' first.
ghost use Rattle.std.specs.Prelude.{◌≡◌};
ghost use Rattle.rules.specs.Card.{StoresFit};
ghost use Rattle.rules.specs.Ledger.{ledger_of};
ghost use Rattle.rules.specs.Sound.{Sound};
ghost use Rattle.rules.specs.Step.{outcome_of, out_of_both, abort};

use crate::leave::leave_both;
use events::abort::abort_live;
use queue::change::take_out;
use rules::Answer;
use rules::action::Kind;

// The table is sound after each: either queue closes up by itself.
fn take_out_of_both(table: &mut [u64], n: u64)
    requires { Sound table.old }
    ensures { table.new ≡ out_of_both table.old n }
{
    take_out(table, Kind::Top, n);
    take_out(table, Kind::Sub, n);
}

pub fn abort(table: &mut [u64], base: &mut [u8], shadow: &mut [u8], n: u64) -> Answer
    requires sound { Sound table.old }
    requires stores_fit { StoresFit base.old shadow.old }
    ensures { outcome_of result table.new base.new shadow.new
        ≡ abort (ledger_of table.old base.old shadow.old) n }
{
    take_out_of_both(table, n);
    let count = abort_live(table, n);
    let left = leave_both(table, base, shadow);
    Answer::Aborted(count, left)
}
