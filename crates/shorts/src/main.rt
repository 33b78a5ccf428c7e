// Short days under both rules: what the call gives at the last place of each length and behind it, and at the worked places of
// docs/RULES.md. A line has the number of events, the rule, the place, and the events: code, number and the byte of the card.
#![tactic(auto)]

use rules::event::{CARD_AT, EVENT_LENGTH, NUMBER_AT};
use rules::rule::Rule;
use shortdays::day::{LENGTH, short_day};
use std::io::Result;

const BACKWARD: u64 = Rule::Backward as u64;

const FORWARD: u64 = Rule::Forward as u64;

// Numbers of events and places.
const PLACES: [(u64, u64); 26] = [
    // The last place of each length, and the one behind it.
    (0, 0),
    (0, 1),
    (1, 0),
    (1, 1),
    (2, 5),
    (2, 6),
    (3, 32),
    (3, 33),
    (4, 252),
    (4, 253),
    (5, 2319),
    (5, 2320),
    (6, 25128),
    (6, 25129),
    // The worked places of docs/RULES.md.
    (2, 0),
    (2, 1),
    (2, 2),
    (2, 3),
    (2, 4),
    (3, 5),
    (3, 13),
    (3, 31),
    (4, 126),
    (5, 1160),
    (6, 0),
    (6, 12564),
];

// A length, two rules and a place that there are not.
const OUTSIDE: [(u64, u64, u64); 4] = [
    (7, BACKWARD, 0),
    (7, 3, 0),
    (6, 0, 0),
    (6, FORWARD, u64::MAX),
];

fn print_event(rt: &impl Print, event: &[u8; EVENT_LENGTH]) -> Result<()> {
    print!(rt; ", {} {} {}", event[0], event[NUMBER_AT], event[CARD_AT])
}

fn print_events(rt: &impl Print, list: &[u8; LENGTH], k: u64) -> Result<()> {
    let (events, _) = list.as_chunks();
    for event in events.iter().take(k as usize) {
        print_event(rt, event)?;
    }
    Ok(())
}

fn print_place(rt: &impl Print, k: u64, rule: u64, place: u64) -> Result<()> {
    let mut list = [0; LENGTH];
    print!(rt; "{k} {rule} {place}")?;
    match short_day(k, rule, place, &mut list) {
        Ok(true) => print_events(rt, &list, k)?,
        Ok(false) => print!(rt; ", none")?,
        Err(refusal) => print!(rt; ", refused {}", u64::from(refusal))?,
    }
    println!(rt)
}

fn print_places(rt: &impl Print, rule: u64) -> Result<()> {
    for (k, place) in PLACES {
        print_place(rt, k, rule, place)?;
    }
    Ok(())
}

fn print_outside(rt: &impl Print) -> Result<()> {
    for (k, rule, place) in OUTSIDE {
        print_place(rt, k, rule, place)?;
    }
    Ok(())
}

fn main(rt: HostRuntime) -> Result<()> {
    print_places(&rt, BACKWARD)?;
    print_places(&rt, FORWARD)?;
    print_outside(&rt)
}
