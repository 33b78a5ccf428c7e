// One event on a table that is known to be sound, over stores that fit.
ghost use Rattle.std.specs.Prelude.{◌≡◌};
ghost use Rattle.rules.specs.Asked.{event_in};
ghost use Rattle.rules.specs.Card.{StoresFit};
ghost use Rattle.rules.specs.Ledger.{ledger_of};
ghost use Rattle.rules.specs.Sound.{Sound};
ghost use Rattle.rules.specs.Step.{outcome_of, step};

use crate::act::act;
use causes::cause::event_cause;
use rules::Answer;
use rules::event::Event;

// Refused, or carried out. A list asks of table and stores once, and then calls this for each event.
pub fn sound_event(
    table: &mut [u64],
    base: &mut [u8],
    shadow: &mut [u8],
    event: Event<'_>,
) -> Answer
    requires sound { Sound table.old }
    requires stores_fit { StoresFit base.old shadow.old }
    ensures { outcome_of result table.new base.new shadow.new
        ≡ step (ledger_of table.old base.old shadow.old) (event_in event.entry) }
{
    match event_cause(table, event) {
        Ok(code) => act(table, base, shadow, code, event),
        Err(refusal) => Answer::Refused(refusal),
    }
}
