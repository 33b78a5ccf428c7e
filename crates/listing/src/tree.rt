// The lines of a tree, from a report as the tree call leaves it in words.
ghost use Rattle.std.specs.Prelude.{◌≡◌, length};
ghost use Rattle.rules.specs.Card.{charge_count};
ghost use Rattle.rules.specs.Tree.{line_length, balance_length, block_place, report_length};
ghost use Rattle.text.specs.Put.{HasRoom, Fits, Writes};
ghost use Rattle.listing.specs.Buffer.{listing_length};
ghost use Rattle.listing.specs.Tree.{state_word};
ghost use Rattle.listing.specs.Report.{HasLines, signed_from, line_at_place, balance_at_place, lines_every, text_of_report};

use crate::rows::rows;
use rules::action::State;
use rules::report::{
    BALANCE_LENGTH, BALANCES, BLOCK_AT, FIGURES_AT, LINE_LENGTH, NUMBER_AT, OPENING_AT, STATE_AT,
};
use text::Text;

const LIVE: u64 = State::Live as u64;

const COMMITTED: u64 = State::Committed as u64;

#[tactic(auto, unfolding(crate::specs::Tree::state_word))]
fn state_word(state: u64) -> &'static [u8]
    ensures { result.now ≡ state_word state }
{
    match state {
        LIVE => b"live",
        COMMITTED => b"committed",
        _ => b"aborted",
    }
}

// Words as signed numbers, each with a space before it.
fn put_signeds(text: &mut Text, words: &[u64])
    requires { Fits text.old (signed_from words.now 0 (length words.now)) }
    ensures { Writes text.old text.new (signed_from words.now 0 (length words.now)) }
{
    for word in words {
        text.put_byte(b' ');
        text.put_signed(*word);
    }
}

#[tactic(auto, using(crate::proofs::TreePieces::length_of_line))]
fn put_action_line(text: &mut Text, line: &[u64; LINE_LENGTH])
    requires { Fits text.old (line_at_place line.now 0) }
    ensures { Writes text.old text.new (line_at_place line.now 0) }
{
    text.put_number(line[0]);
    text.put_spaced(line[NUMBER_AT]);
    text.put_byte(b' ');
    text.put_text(state_word(line[STATE_AT]));
    put_signeds(text, &line[FIGURES_AT..]);
    text.put_byte(b'\n');
}

#[tactic(auto, using(crate::proofs::TreePieces::length_of_balance))]
fn put_balance_line(text: &mut Text, line: &[u64; BALANCE_LENGTH])
    requires { Fits text.old (balance_at_place line.now 0) }
    ensures { Writes text.old text.new (balance_at_place line.now 0) }
{
    text.put_number(line[0]);
    put_signeds(text, &line[OPENING_AT..]);
    text.put_byte(b'\n');
}

// A loop of its own for each kind of line: one for both would take the words, the count and what puts a line.
fn put_action_lines(text: &mut Text, words: &[u64], lines: usize)
    requires has_lines { HasLines words.now lines }
    requires fits { Fits text.old (lines_every line_length (line_at_place words.now) 0 lines) }
    ensures { Writes text.old text.new (lines_every line_length (line_at_place words.now) 0 lines) }
{
    for line in rows::<LINE_LENGTH>(words, lines) {
        put_action_line(text, line);
    }
}

// The lines of the last block.
fn put_balance_lines(text: &mut Text, words: &[u64])
    requires whole { length words.now ≡ report_length }
    requires fits { Fits text.old (lines_every balance_length (balance_at_place words.now) block_place charge_count) }
    ensures { Writes text.old text.new
        (lines_every balance_length (balance_at_place words.now) block_place charge_count) }
{
    for line in rows::<BALANCE_LENGTH>(&words[BLOCK_AT..], BALANCES) {
        put_balance_line(text, line);
    }
}

#[tactic(auto, using(crate::proofs::TreePieces::tree_fits))]
pub fn put_tree(text: &mut Text, words: &[u64], lines: usize)
    requires has_lines { HasLines words.now lines }
    requires room { HasRoom text.old listing_length }
    ensures { Writes text.old text.new (text_of_report words.now lines) }
{
    put_action_lines(text, words, lines);
    put_balance_lines(text, words);
}
