// An add by an action.
ghost use Rattle.std.specs.Prelude.{◌≡◌, false, ◌+ℤ◌};
ghost use Rattle.rules.specs.Card.{IsCharge, IsCard};
ghost use Rattle.rules.specs.Amount.{amount_of, amount_in};
ghost use Rattle.rules.specs.Cause.{is_add_outside};
ghost use Rattle.rules.specs.Step.{add_table};
ghost use Rattle.amounts.specs.Sum.{value_of};
ghost use Rattle.rows.specs.Row.{HasRow};
ghost use Rattle.events.specs.Sums.{add_says, add_leaves};

use amounts::bytes::word_at;
use amounts::sum::{Sum, is_amount, of_word, plus};
use rows::fields::{own_adds, pending, set_own_adds, set_pending, set_write_entry};
use rules::Answer;
use rules::amount::AMOUNT_AT;
use rules::refusal::Refusal;
use rules::table::ENTERED;

// A word's amount and the card's.
fn with_amount(word: u64, card: &[u8]) -> Sum
    requires { IsCard card.now }
    ensures { value_of result ≡ amount_of word +ℤ amount_in card.now }
{
    plus(of_word(word), word_at(card, AMOUNT_AT))
}

// The pending sum or the own adds with the card's amount are no amount.
pub fn is_add_outside(table: &[u64], n: u64, k: u64, card: &[u8]) -> bool
    requires has_row { HasRow table.now n }
    requires charge { IsCharge k × IsCard card.now }
    ensures { result ≡ is_add_outside table.now n k card.now }
{
    let sum = with_amount(pending(table, n, k), card);
    let own = with_amount(own_adds(table, n, k), card);
    !is_amount(sum) || !is_amount(own)
}

// The account entered, and both sums with the card's amount put.
fn put_sums(table: &mut [u64], n: u64, k: u64, card: &[u8])
    requires has_row { HasRow table.old n }
    requires charge { IsCharge k × IsCard card.now }
    requires card_value { is_add_outside table.old n k card.now ≡ false }
    ensures { table.new ≡ add_table table.old n k (amount_in card.now) }
{
    let sum = with_amount(pending(table, n, k), card);
    let own = with_amount(own_adds(table, n, k), card);
    set_write_entry(table, n, k, ENTERED);
    set_pending(table, n, k, sum.low);
    set_own_adds(table, n, k, own.low);
}

// Refused where the pending sum or the own adds would be no amount.
pub fn add(table: &mut [u64], n: u64, k: u64, card: &[u8]) -> Answer
    requires has_row { HasRow table.old n }
    requires charge { IsCharge k × IsCard card.now }
    ensures says { result ≡ add_says table.old n k card.now }
    ensures leaves { table.new ≡ add_leaves table.old n k card.now }
{
    if is_add_outside(table, n, k, card) {
        return Answer::Refused(Refusal::Sum);
    }
    put_sums(table, n, k, card);
    Answer::Added
}
