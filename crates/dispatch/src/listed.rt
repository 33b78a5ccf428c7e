// The event that stands at a place of a list.
ghost use Rattle.std.specs.Prelude.{◌≡◌};
ghost use Rattle.rules.specs.Asked.{event_in};
ghost use Rattle.rules.specs.Encoding.{event_at};
ghost use Rattle.dispatch.specs.Listed.{EventFits};

use rules::event::{ACCOUNT_AT, CARD_AT, EVENT_LENGTH, Event, NUMBER_AT};

// Its card is lent from the list.
pub fn event_at<'a>(events: &'a [u8], at: usize) -> Event<'a>
    requires { EventFits events.now at }
    ensures { event_in result ≡ event_at events.entry.now at }
{
    Event {
        code: u64::from(events[at]),
        number: u64::from(events[at + NUMBER_AT]),
        account: u64::from(events[at + ACCOUNT_AT]),
        card: &events[at + CARD_AT..at + EVENT_LENGTH],
    }
}
