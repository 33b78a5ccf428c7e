// The states after an abort of an action, with all live actions below it.
ghost use Rattle.std.specs.Prelude.{◌≡◌};
ghost use Rattle.rules.specs.Range.{count};
ghost use Rattle.rules.specs.Table.{actions};
ghost use Rattle.rules.specs.Walk.{is_aborted_by};
ghost use Rattle.rules.specs.Step.{abort_table};
ghost use Rattle.ancestry.specs.Ancestry.{LiveClimb};

use ancestry::walk::is_aborted_by;
use rows::fields::{highest, set_state};
use rules::action::State;

// How many became aborted.
pub fn abort_live(table: &mut [u64], n: u64) -> u64
    requires { LiveClimb table.old }
    ensures count { result ≡ count (is_aborted_by table.old n) (actions table.old) }
    ensures leaves { table.new ≡ abort_table table.old n }
{
    let last = highest(table);
    let mut found = 0;
    for m in 1..last + 1 {
        if is_aborted_by(table, n, m) {
            set_state(table, m, State::Aborted);
            found += 1;
        }
    }
    found
}
