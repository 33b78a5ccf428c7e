// The commit of an action: judged, and passed or failed.
ghost use Rattle.std.specs.Prelude.{◌≡◌, false};
ghost use Rattle.rules.specs.Card.{StoresFit};
ghost use Rattle.rules.specs.Table.{parent_of};
ghost use Rattle.rules.specs.Ledger.{ledger_of};
ghost use Rattle.rules.specs.Sound.{IsLiveAction, Sound};
ghost use Rattle.rules.specs.Cause.{is_commit_outside};
ghost use Rattle.rules.specs.Verdict.{commit_verdict};
ghost use Rattle.rules.specs.Commit.{commit_time, committed_under};
ghost use Rattle.rules.specs.Step.{outcome_of, commit};
ghost use Rattle.commits.specs.Outside.{unless_outside};

use crate::copy::copy_down;
use crate::end::end;
use crate::kept::keep_totals;
use crate::newest::note_ends;
use crate::sums::is_outside;
use rows::fields::{parent, set_state};
use rows::join::join_sets;
use rules::Answer;
use rules::action::State;
use rules::refusal::Refusal;
use rules::table::STORE;
use validation::verdict::commit_verdict;

// A commit that passes: the copies, the end, the kept sums, the newest end times, and the sets for a parent that is an action.
// Back comes the end time.
pub(crate) fn pass(table: &mut [u64], base: &mut [u8], shadow: &mut [u8], n: u64) -> u64
    requires sound { Sound table.old }
    requires live_action { IsLiveAction table.old n }
    requires stores_fit { StoresFit base.old shadow.old }
    requires n_value { is_commit_outside table.old base.old n None ≡ false }
    ensures time { result ≡ commit_time table.old n }
    ensures leaves { ledger_of table.new base.new shadow.new
        ≡ committed_under (ledger_of table.old base.old shadow.old) n
        (parent_of table.old n) }
{
    let p = parent(table, n);
    copy_down(table, base, shadow, n, p);
    let time = end(table, n);
    keep_totals(table, n, p);
    note_ends(table, n, p);
    if p != STORE {
        join_sets(table, n, p);
    }
    time
}

// Failed, refused where a sum is no amount, or passed.
pub fn commit(table: &mut [u64], base: &mut [u8], shadow: &mut [u8], n: u64) -> Answer
    requires sound { Sound table.old }
    requires live_action { IsLiveAction table.old n }
    requires stores_fit { StoresFit base.old shadow.old }
    ensures { outcome_of result table.new base.new shadow.new
        ≡ unless_outside (is_commit_outside table.old base.old n (commit_verdict table.old n))
        (ledger_of table.old base.old shadow.old)
        (commit (ledger_of table.old base.old shadow.old) n) }
{
    match commit_verdict(table, n) {
        None => {
            if is_outside(table, base, n) {
                return Answer::Refused(Refusal::Sum);
            }
            let time = pass(table, base, shadow, n);
            Answer::Committed(time)
        }
        Some(found) => {
            set_state(table, n, State::Aborted);
            Answer::Failed(found.against, found.account)
        }
    }
}
