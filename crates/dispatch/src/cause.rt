// Why an event on a sound table, over stores that fit, would be refused.
ghost use Rattle.std.specs.Prelude.{◌≡◌};
ghost use Rattle.rules.specs.Asked.{event_in};
ghost use Rattle.rules.specs.Card.{IsBase};
ghost use Rattle.rules.specs.Code.{code_number};
ghost use Rattle.rules.specs.Refusal.{refusal_of};
ghost use Rattle.rules.specs.Sound.{Sound};
ghost use Rattle.rules.specs.Cause.{first_cause, early_causes, is_sum_outside, later_cause};

use causes::cause::event_cause;
use commits::sums::is_commit_outside;
use events::add::is_add_outside;
use events::read::is_read_outside;
use rules::event::{Code, Event};
use rules::refusal::Refusal;

// A sum that the event makes is no amount, by its code; it has none of the early causes.
#[tactic(auto, unfolding(rules::specs::Cause::are_outside))]
fn is_event_outside(table: &[u64], base: &[u8], code: Code, event: Event<'_>) -> bool
    requires sound { Sound table.now }
    requires base { IsBase base.now }
    requires code { code_number code ≡ event.code }
    requires allowed { first_cause (early_causes table.now (event_in event)) ≡ 0 }
    ensures { result ≡ is_sum_outside table.now base.now (event_in event.entry) }
{
    match code {
        Code::Read => is_read_outside(table, base, event.number, event.account),
        Code::Add => is_add_outside(table, event.number, event.account, event.card),
        Code::Commit => is_commit_outside(table, base, event.number),
        _ => false,
    }
}

// Ok where it would be carried out.
pub fn sound_cause(table: &[u64], base: &[u8], event: Event<'_>) -> Result<(), Refusal>
    requires sound { Sound table.now }
    requires base { IsBase base.now }
    ensures { refusal_of result ≡ later_cause table.now base.now (event_in event.entry) }
{
    let code = event_cause(table, event)?;
    if is_event_outside(table, base, code, event) {
        return Err(Refusal::Sum);
    }
    Ok(())
}
