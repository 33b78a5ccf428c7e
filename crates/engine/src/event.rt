// One event, of any code, number, account and card, on any table and stores; and the cause that it would have.
ghost use Rattle.std.specs.Prelude.{◌≡◌};
ghost use Rattle.rules.specs.Asked.{event_in};
ghost use Rattle.rules.specs.Ledger.{ledger_of};
ghost use Rattle.rules.specs.Cause.{cause_of};
ghost use Rattle.rules.specs.Refusal.{refusal_of};
ghost use Rattle.rules.specs.Step.{step};
ghost use Rattle.engine.specs.Promise.{Gives};

use causes::cause::store_cause;
use dispatch::cause::sound_cause;
use dispatch::event::sound_event;
use rules::Answer;
use rules::event::Event;
use rules::refusal::Refusal;

pub fn event(table: &mut [u64], base: &mut [u8], shadow: &mut [u8], event: Event<'_>) -> Answer
    ensures { Gives result table.new base.new shadow.new
        (step (ledger_of table.old base.old shadow.old) (event_in event.entry)) }
{
    match store_cause(table, base, shadow) {
        Ok(()) => sound_event(table, base, shadow, event),
        Err(refusal) => Answer::Refused(refusal),
    }
}

// Ok where the event would not be refused. Nothing changes.
pub fn cause(table: &[u64], base: &[u8], shadow: &[u8], event: Event<'_>) -> Result<(), Refusal>
    ensures { refusal_of result
        ≡ cause_of table.now base.now shadow.now (event_in event.entry) }
{
    store_cause(table, base, shadow)?;
    sound_cause(table, base, event)
}
