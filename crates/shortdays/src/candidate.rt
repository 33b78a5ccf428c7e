// A candidate, which is an event that is tried, written into a list.
ghost use Rattle.std.specs.Prelude.{cond, ◌≡◌, ◌+◌, ◌<◌, eqb};
ghost use Rattle.rules.specs.Amount.{byte_values};
ghost use Rattle.rules.specs.Event.{write_code};
ghost use Rattle.enumeration.specs.Lists.{candidate, code_tried};
ghost use Rattle.shortdays.specs.Written.{IsCandidate, FewBefore, HasEvent, with_event};

use rules::event::{ACCOUNT_AT, CARD_AT, Code, EVENT_LENGTH, NUMBER_AT};
use rules::store::CARD_LENGTH;
use stores::cards::put_card;

// How many candidates there are, and how many numbers are tried with each code.
pub(crate) const CANDIDATES: u64 = 30;

const NUMBERS: u64 = 6;

// The only account of a short day.
const ACCOUNT: u8 = 0;

fn byte_of(x: u64) -> u8
    requires { x < byte_values }
    ensures { result ≡ x }
{
    x as u8
}

fn code_of(c: u64) -> u64
    ensures { result ≡ code_tried c }
{
    u64::from(Code::Start) + c / NUMBERS
}

// What fills the card of an event with this code: of a write its place, counted from 1.
fn filling(code: u64, p: usize) -> u64
    requires { FewBefore p }
    ensures { result ≡ cond (eqb code write_code) (p + 1) 0 }
{
    if code == u64::from(Code::Write) {
        (p + 1) as u64
    } else {
        0
    }
}

// Candidate c, behind p other events.
pub(crate) fn put_candidate(list: &mut [u8], p: usize, c: u64)
    requires candidate { IsCandidate c }
    requires has_event { HasEvent list.old p }
    ensures { list.new ≡ with_event list.old p (candidate p c) }
{
    let at = EVENT_LENGTH * p;
    let code = code_of(c);
    list[at] = byte_of(code);
    list[at + NUMBER_AT] = byte_of(c % NUMBERS);
    list[at + ACCOUNT_AT] = ACCOUNT;
    let card = [byte_of(filling(code, p)); CARD_LENGTH];
    put_card(list, at + CARD_AT, &card);
}
