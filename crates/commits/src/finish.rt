// The end of an action that has left its queue: it commits or, where a sum is no amount, it is aborted.
ghost use Rattle.std.specs.Prelude.{◌≡◌};
ghost use Rattle.rules.specs.Card.{StoresFit};
ghost use Rattle.rules.specs.Ledger.{ledger_of};
ghost use Rattle.rules.specs.Sound.{IsLiveAction, Sound};
ghost use Rattle.rules.specs.Cause.{is_commit_outside};
ghost use Rattle.rules.specs.Step.{finished};

use crate::commit::pass;
use crate::sums::is_outside;
use rows::fields::set_state;
use rules::action::State;

#[tactic(auto, unfolding(rules::specs::Step::finished))]
pub fn finish(table: &mut [u64], base: &mut [u8], shadow: &mut [u8], n: u64)
    requires sound { Sound table.old }
    requires live_action { IsLiveAction table.old n }
    requires stores_fit { StoresFit base.old shadow.old }
    ensures { ledger_of table.new base.new shadow.new
        ≡ finished (ledger_of table.old base.old shadow.old) n
        (is_commit_outside table.old base.old n None) }
{
    if is_outside(table, base, n) {
        set_state(table, n, State::Aborted);
    } else {
        pass(table, base, shadow, n);
    }
}
