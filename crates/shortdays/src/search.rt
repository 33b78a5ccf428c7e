// The search for the list at a place, through the candidates as the definition of all lists goes through them.
ghost use Rattle.std.specs.Prelude.{◌≡◌, ◌+◌, ◌-◌};
ghost use Rattle.rules.specs.Asked.{event_in};
ghost use Rattle.rules.specs.Card.{IsBase};
ghost use Rattle.rules.specs.Ledger.{ledger_of};
ghost use Rattle.rules.specs.Rule.{rule_number};
ghost use Rattle.rules.specs.Sound.{Sound};
ghost use Rattle.enumeration.specs.Lists.{candidate_count, candidate, beginning, beginning_from, lists};
ghost use Rattle.shortdays.specs.Written.{IsCandidate, IsNextCandidate};
ghost use Rattle.shortdays.specs.Search.{Searching, IsSought, has_cause};

use crate::back::bring_back;
use crate::candidate::{CANDIDATES, put_candidate};
use dispatch::cause::sound_cause;
use dispatch::event::sound_event;
use dispatch::listed::event_at;
use rules::event::{EVENT_LENGTH, Event};
use rules::rule::Rule;

// An event has a cause, on a sound table over stores that fit, as it is asked of.
#[tactic(auto, using(crate::proofs::Asked::told_by_number))]
fn is_refused(table: &[u64], base: &[u8], event: Event<'_>) -> bool
    requires sound { Sound table.now }
    requires base { IsBase base.now }
    ensures { result ≡ has_cause table.now base.now (event_in event.entry) }
{
    sound_cause(table, base, event).is_err()
}

// Place i among the lists that begin with candidate c, behind p events and with so many left. Found, the list is written; an error
// is how far the place is past the last list.
#[cycle(seek_seek_with)]
fn seek_with(
    table: &mut [u64],
    base: &mut [u8],
    shadow: &mut [u8],
    list: &mut [u8],
    rule: Rule,
    p: usize,
    left: usize,
    c: u64,
    i: u64,
) -> Result<(), u64>
    requires searching { Searching (rule_number rule) p left list.old (ledger_of table.old base.old shadow.old) }
    requires candidate { IsCandidate c }
    ensures { IsSought
        (beginning (lists (left - 1) (p + 1)) (ledger_of table.old base.old shadow.old) (candidate p c))
        i p left
        (ledger_of table.old base.old shadow.old)
        (ledger_of table.new base.new shadow.new)
        list.old list.new result }
{
    put_candidate(list, p, c);
    let at = EVENT_LENGTH * p;
    if is_refused(table, base, event_at(list, at)) {
        return Err(i);
    }
    if left == 1 {
        if i == 0 {
            return Ok(());
        }
        let passed = i - 1;
        return Err(passed);
    }
    sound_event(table, base, shadow, event_at(list, at));
    match seek(table, base, shadow, list, rule, p + 1, left - 1, 0, i) {
        Ok(()) => Ok(()),
        Err(past) => {
            bring_back(table, base, shadow, rule, list, p);
            Err(past)
        }
    }
}

// Place i among those that begin with one of the candidates from c on.
#[cycle(seek_seek_with)]
pub(crate) fn seek(
    table: &mut [u64],
    base: &mut [u8],
    shadow: &mut [u8],
    list: &mut [u8],
    rule: Rule,
    p: usize,
    left: usize,
    c: u64,
    i: u64,
) -> Result<(), u64>
    requires searching { Searching (rule_number rule) p left list.old (ledger_of table.old base.old shadow.old) }
    requires next_candidate { IsNextCandidate c }
    ensures { IsSought
        (beginning_from (lists (left - 1) (p + 1)) p (ledger_of table.old base.old shadow.old)
        (candidate_count - c) c)
        i p left
        (ledger_of table.old base.old shadow.old)
        (ledger_of table.new base.new shadow.new)
        list.old list.new result }
{
    if c == CANDIDATES {
        return Err(i);
    }
    match seek_with(table, base, shadow, list, rule, p, left, c, i) {
        Ok(()) => Ok(()),
        Err(past) => seek(table, base, shadow, list, rule, p, left, c + 1, past),
    }
}
