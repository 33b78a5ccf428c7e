// A whole day on a lent ledger, and the tree of the table that it leaves.
ghost use Rattle.std.specs.Prelude.{◌≡◌};
ghost use Rattle.rules.specs.Ledger.{ledger_of};
ghost use Rattle.rules.specs.Refusal.{refusal_of};
ghost use Rattle.text.specs.Put.{HasRoom, Writes};
ghost use Rattle.listing.specs.Buffer.{listing_length};
ghost use Rattle.listing.specs.Tree.{tree_text};
ghost use Rattle.dayfile.specs.Tree.{day_tree_cause, HasReport, day_tree_of, run_day_tree};

use crate::day::{day_cause, run_file};
use dayread::opening::open_base;
use listing::tree::put_tree;
use report::report::report;
use rules::day::{ANSWERS_LENGTH, LISTING_LENGTH};
use rules::refusal::Refusal;
use rules::report::REPORT_LENGTH;
use rules::store::BASE_LENGTH;
use text::Text;

#[tactic(auto, unfolding(crate::specs::Tree::day_tree_cause))]
fn tree_cause(
    file: &[u8],
    table: &[u64],
    base: &[u8],
    shadow: &[u8],
    opening: &[u8],
) -> Result<(), Refusal>
    ensures { refusal_of result
        ≡ day_tree_cause (ledger_of table.now base.now shadow.now)
        opening.now file.now }
{
    if opening.len() != BASE_LENGTH {
        return Err(Refusal::StoreLength);
    }
    day_cause(file, table, base, shadow)
}

// The tree of a table that has one.
fn put_report(text: &mut Text, table: &[u64], base: &[u8], shadow: &[u8], opening: &[u8])
    requires has_report { HasReport table.now base.now shadow.now opening.now }
    requires room { HasRoom text.old listing_length }
    ensures { Writes text.old text.new (tree_text table.now base.now opening.now) }
{
    let mut words = [0; REPORT_LENGTH];
    let lines = report(table, base, shadow, opening, &mut words).unwrap();
    put_tree(text, &words, lines);
}

// Back comes the text's length; the text stands at the front of its buffer, and the day's opening base store in `opening`.
// A day's figures are amounts, so there always is a report.
pub fn tree(
    file: &[u8],
    table: &mut [u64],
    base: &mut [u8],
    shadow: &mut [u8],
    opening: &mut [u8],
    out: &mut [u8; LISTING_LENGTH],
) -> usize
    ensures { day_tree_of result out.new
        (ledger_of table.new base.new shadow.new) opening.new
        ≡ run_day_tree (ledger_of table.old base.old shadow.old)
        opening.old file.now out.old }
{
    let mut text = Text::new(out);
    if let Err(refusal) = tree_cause(file, table, base, shadow, opening) {
        text.put_refused(u64::from(refusal));
        return text.length();
    }
    let mut answers = [0; ANSWERS_LENGTH];
    run_file(file, table, base, shadow, &mut answers);
    open_base(file, opening);
    put_report(&mut text, table, base, shadow, opening);
    text.length()
}
