// The open calls over the C ABI: a slice is a pointer and a length, a number is itself. include/mundzavch.h says what each
// pointer must be; the promises are those of the calls that these pass on to.
#![tactic(auto)]

ghost use Rattle.std.specs.Prelude.{◌≡◌, [], ◌∷◌};
ghost use Rattle.rules.specs.Kind.{top_kind, sub_kind};
ghost use Rattle.rules.specs.Table.{highest, counter};
ghost use Rattle.rules.specs.Ledger.{ledger_of};
ghost use Rattle.rules.specs.Event.{event_of};
ghost use Rattle.rules.specs.Cause.{cause_of};
ghost use Rattle.rules.specs.Refusal.{refusal_of};
ghost use Rattle.rules.specs.Step.{step};
ghost use Rattle.rules.specs.Look.{look, looked_card};
ghost use Rattle.rules.specs.Tree.{report_of, report};
ghost use Rattle.table.specs.Open.{open_cause, open_table};
ghost use Rattle.lists.specs.Listed.{listed_of, run_list};
ghost use Rattle.dayfile.specs.Day.{day_of, run_day};
ghost use Rattle.dayfile.specs.Tree.{day_tree_of, run_day_tree};
ghost use Rattle.shortdays.specs.Call.{short_answer, short_list};
ghost use Rattle.capi.specs.Given.{GivesWords, shown_in, short_kind};

use rules::day::LISTING_LENGTH;
use rules::event::Event;
use rules::refusal::Refusal;
use rules::report::{NO_LINES, REPORT_LENGTH};
use rules::store::CARD_LENGTH;
use shortdays::day::{LENGTH, short_day};

// Stands for no refusal: causes are numbered from 1.
const NONE: u64 = 0;

// What C is given of a call's answer: the number of its refusal, none's where it isn't refused.
fn number_of<T: Copy>(answer: Result<T, Refusal>) -> u64
    ensures { result ≡ refusal_of answer }
{
    match answer {
        Ok(_) => NONE,
        Err(refusal) => u64::from(refusal),
    }
}

// table::open
#[unsafe(no_mangle)]
pub extern "C" fn mundzavch_open(table: &mut [u64], rule: u64) -> u64
    ensures cause { result ≡ open_cause table.old rule }
    ensures leaves { table.new ≡ open_table table.old rule }
{
    number_of(table::open(table, rule))
}

// table::highest
#[unsafe(no_mangle)]
pub extern "C" fn mundzavch_highest(table: &[u64]) -> u64
    ensures { result ≡ highest table.now }
{
    table::highest(table)
}

// table::top_counter
#[unsafe(no_mangle)]
pub extern "C" fn mundzavch_top_counter(table: &[u64]) -> u64
    ensures { result ≡ counter table.now top_kind }
{
    table::top_counter(table)
}

// table::sub_counter
#[unsafe(no_mangle)]
pub extern "C" fn mundzavch_sub_counter(table: &[u64]) -> u64
    ensures { result ≡ counter table.now sub_kind }
{
    table::sub_counter(table)
}

// event::event: back comes the answer's kind, and its numbers in `first`, `second` and `third`.
#[unsafe(no_mangle)]
pub extern "C" fn mundzavch_event(
    table: &mut [u64],
    base: &mut [u8],
    shadow: &mut [u8],
    code: u64,
    number: u64,
    account: u64,
    card: &[u8],
    first: &mut u64,
    second: &mut u64,
    third: &mut u64,
) -> u64
    ensures { GivesWords (result ∷ first.new ∷ second.new ∷ third.new ∷ [])
        table.new base.new shadow.new
        (step (ledger_of table.old base.old shadow.old)
        (event_of code number account card.now)) }
{
    let event = Event {
        code,
        number,
        account,
        card,
    };
    let answer = engine::event::event(table, base, shadow, event);
    let words = lists::answer::words(answer);
    *first = words[1];
    *second = words[2];
    *third = words[3];
    words[0]
}

// event::cause
#[unsafe(no_mangle)]
pub extern "C" fn mundzavch_cause(
    table: &[u64],
    base: &[u8],
    shadow: &[u8],
    code: u64,
    number: u64,
    account: u64,
    card: &[u8],
) -> u64
    ensures { result
        ≡ cause_of table.now base.now shadow.now
        (event_of code number account card.now) }
{
    let event = Event {
        code,
        number,
        account,
        card,
    };
    number_of(engine::event::cause(table, base, shadow, event))
}

// look::look, its part copied to the front of `card`, which a refused look leaves as it was; its moves in `moves`.
#[unsafe(no_mangle)]
pub extern "C" fn mundzavch_look<'a>(
    table: &[u64],
    base: &'a [u8],
    shadow: &'a [u8],
    number: u64,
    account: u64,
    card: &mut [u8; CARD_LENGTH],
    moves: &mut u64,
) -> u64
    ensures cause { result
        ≡ (look table.now base.now shadow.now number account).cause }
    ensures moves { moves.new
        ≡ (look table.now base.now shadow.now number account).moves }
    ensures card { card.new
        ≡ shown_in card.old
        (looked_card table.now base.now shadow.now number account) }
{
    let looked = engine::look::look(table, base, shadow, number, account);
    *moves = looked.moves;
    card[..looked.part.len()].copy_from_slice(looked.part);
    number_of(looked.cause)
}

// run::run
#[unsafe(no_mangle)]
pub extern "C" fn mundzavch_run(
    table: &mut [u64],
    base: &mut [u8],
    shadow: &mut [u8],
    events: &[u8],
    answers: &mut [u64],
) -> u64
    ensures { listed_of result (ledger_of table.new base.new shadow.new) answers.new
        ≡ run_list (ledger_of table.old base.old shadow.old)
        events.now answers.old }
{
    number_of(lists::run::run(table, base, shadow, events, answers))
}

// day::day
#[unsafe(no_mangle)]
pub extern "C" fn mundzavch_day(
    file: &[u8],
    table: &mut [u64],
    base: &mut [u8],
    shadow: &mut [u8],
    out: &mut [u8; LISTING_LENGTH],
) -> usize
    ensures { day_of result out.new (ledger_of table.new base.new shadow.new)
        ≡ run_day (ledger_of table.old base.old shadow.old)
        file.now out.old }
{
    dayfile::day::day(file, table, base, shadow, out)
}

// report::report
#[unsafe(no_mangle)]
pub extern "C" fn mundzavch_tree(
    table: &[u64],
    base: &[u8],
    shadow: &[u8],
    opening: &[u8],
    out: &mut [u64; REPORT_LENGTH],
    lines: &mut u64,
) -> u64
    ensures { report_of result lines.new out.new
        ≡ report table.now base.now shadow.now opening.now
        out.old }
{
    match report::report::report(table, base, shadow, opening, out) {
        Ok(put) => {
            *lines = put as u64;
            NONE
        }
        Err(refusal) => {
            *lines = NO_LINES;
            u64::from(refusal)
        }
    }
}

// tree::tree
#[unsafe(no_mangle)]
pub extern "C" fn mundzavch_day_tree(
    file: &[u8],
    table: &mut [u64],
    base: &mut [u8],
    shadow: &mut [u8],
    opening: &mut [u8],
    out: &mut [u8; LISTING_LENGTH],
) -> usize
    ensures { day_tree_of result out.new
        (ledger_of table.new base.new shadow.new) opening.new
        ≡ run_day_tree (ledger_of table.old base.old shadow.old)
        opening.old file.now out.old }
{
    dayfile::tree::tree(file, table, base, shadow, opening, out)
}

// What mundzavch_short_day answers.
const SHORT_REFUSED: u64 = 0;

const SHORT_GIVEN: u64 = 1;

const SHORT_NONE: u64 = 2;

// day::short_day: back comes the answer's kind, and in `refusal` the number of its cause, none where it isn't refused.
#[unsafe(no_mangle)]
pub extern "C" fn mundzavch_short_day(
    k: u64,
    rule: u64,
    place: u64,
    list: &mut [u8; LENGTH],
    refusal: &mut u64,
) -> u64
    ensures kind { result ≡ short_kind (short_answer k rule place) }
    ensures refusal { refusal.new ≡ refusal_of (short_answer k rule place) }
    ensures list { list.new ≡ short_list k rule place list.old }
{
    let answer = short_day(k, rule, place, list);
    *refusal = number_of(answer);
    match answer {
        Ok(true) => SHORT_GIVEN,
        Ok(false) => SHORT_NONE,
        Err(_) => SHORT_REFUSED,
    }
}
