// An event that has no cause to be refused but, perhaps, the last, by its code.
ghost use Rattle.std.specs.Prelude.{◌≡◌};
ghost use Rattle.rules.specs.Ledger.{ledger_of};
ghost use Rattle.rules.specs.Asked.{event_in};
ghost use Rattle.rules.specs.Card.{StoresFit};
ghost use Rattle.rules.specs.Code.{code_number};
ghost use Rattle.rules.specs.Sound.{Sound};
ghost use Rattle.rules.specs.Cause.{first_cause, early_causes};
ghost use Rattle.rules.specs.Step.{outcome_of, step};

use commits::commit::commit;
use events::add::add;
use events::read::read;
use events::start::start;
use events::write::write;
use judging::abort::abort;
use judging::enter::enter;
use judging::judge::judge;
use rules::Answer;
use rules::event::{Code, Event};

#[tactic(auto, using(crate::proofs::Permitted::may_start, crate::proofs::Permitted::may_read, crate::proofs::Permitted::may_write, crate::proofs::Permitted::may_add))]
pub(crate) fn act(
    table: &mut [u64],
    base: &mut [u8],
    shadow: &mut [u8],
    code: Code,
    event: Event<'_>,
) -> Answer
    requires sound { Sound table.old }
    requires stores_fit { StoresFit base.old shadow.old }
    requires code { code_number code ≡ event.code }
    requires allowed { first_cause (early_causes table.old (event_in event)) ≡ 0 }
    ensures { outcome_of result table.new base.new shadow.new
        ≡ step (ledger_of table.old base.old shadow.old) (event_in event.entry) }
{
    match code {
        Code::Start => {
            let n = start(table, event.number);
            Answer::Started(n)
        }
        Code::Read => read(table, base, event.number, event.account),
        Code::Write => {
            write(table, shadow, event.number, event.account, event.card);
            Answer::Written
        }
        Code::Commit => commit(table, base, shadow, event.number),
        Code::Abort => abort(table, base, shadow, event.number),
        Code::Add => add(table, event.number, event.account, event.card),
        Code::Enter => {
            enter(table, event.number);
            Answer::Entered
        }
        Code::Judge => judge(table, base, shadow, event.number),
    }
}
