// Those who leave a queue: while its head is ready.
ghost use Rattle.std.specs.Prelude.{◌≡◌};
ghost use Rattle.rules.specs.Card.{StoresFit};
ghost use Rattle.rules.specs.Ledger.{ledger_of};
ghost use Rattle.rules.specs.Sound.{Sound};
ghost use Rattle.rules.specs.Action.{kind_number};
ghost use Rattle.rules.specs.Step.{head_left, leave, leave_both};
ghost use Rattle.judging.specs.Asked.{HasReadyHead};

use commits::finish::finish;
use queue::change::take_out;
use queue::find::{head, is_head_ready};
use rules::action::Kind;

// The head is taken out first and finished then: so the table is sound in between.
fn leave_head(table: &mut [u64], base: &mut [u8], shadow: &mut [u8], h: Kind)
    requires sound { Sound table.old }
    requires stores_fit { StoresFit base.old shadow.old }
    requires has_ready_head { HasReadyHead table.old (kind_number h) }
    ensures { ledger_of table.new base.new shadow.new
        ≡ head_left (kind_number h) (ledger_of table.old base.old shadow.old) }
{
    let n = head(table, h);
    take_out(table, h, n);
    finish(table, base, shadow, n);
}

// How many left.
pub(crate) fn leave(table: &mut [u64], base: &mut [u8], shadow: &mut [u8], h: Kind) -> u64
    requires sound { Sound table.old }
    requires stores_fit { StoresFit base.old shadow.old }
    ensures count { result
        ≡ (leave (kind_number h) (ledger_of table.old base.old shadow.old)).many }
    ensures leaves { ledger_of table.new base.new shadow.new
        ≡ (leave (kind_number h) (ledger_of table.old base.old shadow.old)).after }
{
    let mut left = 0;
    while is_head_ready(table, h) {
        leave_head(table, base, shadow, h);
        left += 1;
    }
    left
}

// How many left the topactions' queue and then the other.
pub(crate) fn leave_both(table: &mut [u64], base: &mut [u8], shadow: &mut [u8]) -> u64
    requires sound { Sound table.old }
    requires stores_fit { StoresFit base.old shadow.old }
    ensures count { result
        ≡ (leave_both (ledger_of table.old base.old shadow.old)).many }
    ensures leaves { ledger_of table.new base.new shadow.new
        ≡ (leave_both (ledger_of table.old base.old shadow.old)).after }
{
    let tops = leave(table, base, shadow, Kind::Top);
    let subs = leave(table, base, shadow, Kind::Sub);
    tops + subs
}
