// A verdict revealed: the action fails or becomes ready, and the head of its queue is tried.
ghost use Rattle.std.specs.Prelude.{◌≡◌};
ghost use Rattle.rules.specs.Card.{StoresFit};
ghost use Rattle.rules.specs.Ledger.{ledger_of};
ghost use Rattle.rules.specs.Sound.{Sound};
ghost use Rattle.rules.specs.Step.{outcome_of, judge};
ghost use Rattle.judging.specs.Asked.{IsQueued};
ghost use Rattle.judging.specs.Reveal.{revealed_table};

use crate::leave::leave;
use queue::change::{mark_ready, take_out};
use queue::find::is_queued_failed;
use rows::fields::{kind_of, set_state};
use rules::Answer;
use rules::action::State;

fn reveal(table: &mut [u64], n: u64, failed: bool)
    requires sound { Sound table.old }
    requires queued { IsQueued table.old n }
    ensures { table.new ≡ revealed_table table.old n failed }
{
    let h = kind_of(table, n);
    if failed {
        take_out(table, h, n);
        set_state(table, n, State::Aborted);
    } else {
        mark_ready(table, h, n);
    }
}

pub fn judge(table: &mut [u64], base: &mut [u8], shadow: &mut [u8], n: u64) -> Answer
    requires sound { Sound table.old }
    requires stores_fit { StoresFit base.old shadow.old }
    requires queued { IsQueued table.old n }
    ensures { outcome_of result table.new base.new shadow.new
        ≡ judge (ledger_of table.old base.old shadow.old) n }
{
    let h = kind_of(table, n);
    let failed = is_queued_failed(table, h, n);
    reveal(table, n, failed);
    let left = leave(table, base, shadow, h);
    if failed {
        return Answer::JudgedFailed(left);
    }
    Answer::Ready(left)
}
