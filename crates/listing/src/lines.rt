// The lines of a listing, from answers as the list call leaves them in words.
ghost use Rattle.std.specs.Prelude.{◌≡◌};
ghost use Rattle.text.specs.Text.{spaced};
ghost use Rattle.text.specs.Put.{HasRoom, Fits, Writes};
ghost use Rattle.listing.specs.Listing.{end_line};
ghost use Rattle.listing.specs.Buffer.{HasAnswers, listing_length, word_of, has_no_numbers, has_two_numbers, numbers_of, text_at, line_at, lines_of, starts_from, listing_of};

use crate::rows::rows;
use rules::kind;
use rules::kind::ANSWER_LENGTH;
use text::Text;

// A kind stays a number here: it is a word of a list's buffer (RULES 5), which may hold any.
#[tactic(auto, unfolding(crate::specs::Buffer::word_of))]
fn word_of(kind: u64) -> &'static [u8]
    ensures { result.now ≡ word_of kind }
{
    match kind {
        kind::REFUSED => b"refused",
        kind::STARTED => b"started",
        kind::READ | kind::READ_SUM => b"read",
        kind::WRITTEN => b"written",
        kind::COMMITTED => b"committed",
        kind::ABORTED => b"aborted",
        kind::ADDED => b"added",
        kind::ENTERED => b"entered",
        kind::READY => b"ready",
        _ => b"failed",
    }
}

fn has_no_numbers(kind: u64) -> bool
    ensures { result ≡ has_no_numbers kind }
{
    matches!(kind, kind::WRITTEN | kind::ADDED | kind::ENTERED)
}

fn has_two_numbers(kind: u64) -> bool
    ensures { result ≡ has_two_numbers kind }
{
    matches!(
        kind,
        kind::READ | kind::FAILED | kind::ABORTED | kind::READ_SUM
    )
}

fn put_numbers(text: &mut Text, kind: u64, first: u64, second: u64)
    requires { Fits text.old (spaced (numbers_of kind first second)) }
    ensures { Writes text.old text.new (spaced (numbers_of kind first second)) }
{
    if has_no_numbers(kind) {
        return;
    }
    text.put_spaced(first);
    if has_two_numbers(kind) {
        text.put_spaced(second);
    }
}

#[tactic(auto, unfolding(crate::specs::Buffer::text_of), using(crate::proofs::Pieces::length_with_sum))]
fn put_answer(text: &mut Text, answer: &[u64; ANSWER_LENGTH])
    requires { Fits text.old (text_at answer.now 0) }
    ensures { Writes text.old text.new (text_at answer.now 0) }
{
    let [kind, first, second, third] = *answer;
    text.put_text(word_of(kind));
    put_numbers(text, kind, first, second);
    if kind == kind::READ_SUM {
        text.put_byte(b' ');
        text.put_signed(third);
    }
}

#[tactic(auto, using(crate::proofs::Pieces::length_of_line))]
fn put_line(text: &mut Text, place: u64, answer: &[u64; ANSWER_LENGTH])
    requires { Fits text.old (line_at answer.now place 0) }
    ensures { Writes text.old text.new (line_at answer.now place 0) }
{
    text.put_number(place);
    text.put_byte(b' ');
    put_answer(text, answer);
    text.put_byte(b'\n');
}

// The lines of the first answers, from place 1 on.
fn put_lines(text: &mut Text, answers: &[u64], count: usize)
    requires has_answers { HasAnswers answers.now count }
    requires room { HasRoom text.old listing_length }
    ensures { Writes text.old text.new (lines_of answers.now 1 0 count) }
{
    for (i, answer) in rows::<ANSWER_LENGTH>(answers, count).iter().enumerate() {
        put_line(text, (i + 1) as u64, answer);
    }
}

// How many of the first answers are starts.
fn count_starts(answers: &[u64], count: usize) -> u64
    requires { HasAnswers answers.now count }
    ensures { result ≡ starts_from answers.now 0 count }
{
    let mut starts = 0;
    for answer in rows::<ANSWER_LENGTH>(answers, count) {
        starts += u64::from(answer[0] == kind::STARTED);
    }
    starts
}

#[tactic(auto, using(crate::proofs::Pieces::length_of_end))]
fn put_end(text: &mut Text, starts: u64, top: u64, sub: u64)
    requires { Fits text.old (end_line starts top sub) }
    ensures { Writes text.old text.new (end_line starts top sub) }
{
    text.put_text(b"end");
    text.put_spaced(starts);
    text.put_spaced(top);
    text.put_spaced(sub);
    text.put_byte(b'\n');
}

// The listing of a day that is run: its lines, and the line of its starts and its table's two counters.
#[tactic(auto, using(crate::proofs::Bounds::listing_fits))]
pub fn put_listing(text: &mut Text, answers: &[u64], count: usize, table: &[u64])
    requires has_answers { HasAnswers answers.now count }
    requires room { HasRoom text.old listing_length }
    ensures { Writes text.old text.new (listing_of answers.now count table.now) }
{
    put_lines(text, answers, count);
    let starts = count_starts(answers, count);
    let top = table::top_counter(table);
    let sub = table::sub_counter(table);
    put_end(text, starts, top, sub);
}
