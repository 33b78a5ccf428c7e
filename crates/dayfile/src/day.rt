// A whole day on a lent ledger.
ghost use Rattle.std.specs.Prelude.{◌≡◌};
ghost use Rattle.rules.specs.Ledger.{ledger_of};
ghost use Rattle.rules.specs.Refusal.{refusal_of};
ghost use Rattle.dayread.specs.File.{event_count, events_place};
ghost use Rattle.dayread.specs.Opening.{IsFaultless};
ghost use Rattle.dayfile.specs.Day.{day_cause, Accepts, HasAnswerRoom, day_run, day_words, day_of, run_day};

use dayread::file::file_fault;
use dayread::opening::open_base;
use dayread::reader::byte_at;
use listing::lines::put_listing;
use rules::day::{
    ANSWERS_LENGTH, CARD_COUNT_LENGTH, ENTRY_LENGTH, EVENT_COUNT_LENGTH, LISTING_LENGTH,
};
use rules::event::EVENT_LENGTH;
use rules::refusal::Refusal;
use rules::rule::Rule;
use rules::store::{BASE_LENGTH, SHADOW_LENGTH};
use rules::table::TABLE_LENGTH;
use text::Text;

#[tactic(auto, unfolding(crate::specs::Day::day_cause))]
pub(crate) fn day_cause(
    file: &[u8],
    table: &[u64],
    base: &[u8],
    shadow: &[u8],
) -> Result<(), Refusal>
    ensures { refusal_of result
        ≡ day_cause (ledger_of table.now base.now shadow.now) file.now }
{
    if base.len() != BASE_LENGTH || shadow.len() != SHADOW_LENGTH {
        return Err(Refusal::StoreLength);
    }
    if table.len() != TABLE_LENGTH {
        return Err(Refusal::Unsound);
    }
    file_fault(file)
}

// Where the events of a file without fault begin.
fn events_at(file: &[u8]) -> usize
    requires { IsFaultless file.now }
    ensures { result ≡ events_place file.now }
{
    CARD_COUNT_LENGTH + ENTRY_LENGTH * byte_at(file, 0) + EVENT_COUNT_LENGTH
}

// The events of a file without fault, run on a new table over its opening base store; back comes how many there are.
pub(crate) fn run_file(
    file: &[u8],
    table: &mut [u64],
    base: &mut [u8],
    shadow: &mut [u8],
    answers: &mut [u64],
) -> usize
    requires accepts { Accepts (ledger_of table.old base.old shadow.old) file.now }
    requires has_answer_room { HasAnswerRoom answers.old }
    ensures count { result ≡ event_count file.now }
    ensures leaves { ledger_of table.new base.new shadow.new
        ≡ (day_run shadow.old file.now).after }
    ensures answers { answers.new
        ≡ day_words shadow.old file.now answers.old }
{
    table::open(table, u64::from(Rule::Backward)).unwrap();
    open_base(file, base);
    let at = events_at(file);
    lists::run::run(table, base, shadow, &file[at..], answers).unwrap();
    (file.len() - at) / EVENT_LENGTH
}

// Back comes the listing's length; the listing stands at the front of its buffer.
pub fn day(
    file: &[u8],
    table: &mut [u64],
    base: &mut [u8],
    shadow: &mut [u8],
    out: &mut [u8; LISTING_LENGTH],
) -> usize
    ensures { day_of result out.new (ledger_of table.new base.new shadow.new)
        ≡ run_day (ledger_of table.old base.old shadow.old)
        file.now out.old }
{
    let mut text = Text::new(out);
    if let Err(refusal) = day_cause(file, table, base, shadow) {
        text.put_refused(u64::from(refusal));
        return text.length();
    }
    let mut answers = [0; ANSWERS_LENGTH];
    let count = run_file(file, table, base, shadow, &mut answers);
    put_listing(&mut text, &answers, count, table);
    text.length()
}
