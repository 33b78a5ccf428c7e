// What is wrong with a day file.
ghost use Rattle.std.specs.Prelude.{◌≡◌, ◌+◌, ◌*◌, ◌≤◌, ◌<◌, length};
ghost use Rattle.rules.specs.Range.{all, up_from};
ghost use Rattle.rules.specs.Refusal.{refusal_of};
ghost use Rattle.dayread.specs.File.{account_place, most_cards, is_rising, file_fault};

use crate::reader::{byte_at, number_at};
use rules::day::{CARD_COUNT_LENGTH, ENTRY_LENGTH, EVENT_COUNT_LENGTH, MOST_CARDS, MOST_EVENTS};
use rules::event::EVENT_LENGTH;
use rules::refusal::Refusal;
use rules::store::ACCOUNTS;

// The ith opening account is known, and above the one before it.
fn is_rising(file: &[u8], i: usize) -> bool
    requires i_in_bounds { account_place i < length file.now }
    requires i_lt_most_cards { i < most_cards }
    ensures { result ≡ is_rising file.now i }
{
    let account = byte_at(file, CARD_COUNT_LENGTH + ENTRY_LENGTH * i);
    account < ACCOUNTS as usize
        && (i == 0 || byte_at(file, CARD_COUNT_LENGTH + ENTRY_LENGTH * (i - 1)) < account)
}

fn all_rising(file: &[u8], count: usize) -> bool
    requires count_in_bounds { account_place count ≤ length file.now }
    requires count_le_most_cards { count ≤ most_cards }
    ensures { result ≡ all (is_rising file.now) (up_from 0 count) }
{
    (0..count).all(|i| is_rising(file, i))
}

// The first fault in the order of RULES 9.2.
#[tactic(auto, unfolding(crate::specs::File::file_fault))]
pub fn file_fault(file: &[u8]) -> Result<(), Refusal>
    ensures { refusal_of result ≡ file_fault file.now }
{
    if file.len() == 0 {
        return Err(Refusal::Length);
    }
    let cards = byte_at(file, 0);
    if MOST_CARDS < cards {
        return Err(Refusal::Count);
    }
    let at = CARD_COUNT_LENGTH + ENTRY_LENGTH * cards;
    if file.len() < at + EVENT_COUNT_LENGTH {
        return Err(Refusal::Length);
    }
    let events = number_at(file, at);
    if MOST_EVENTS < events {
        return Err(Refusal::Count);
    }
    if file.len() != at + EVENT_COUNT_LENGTH + EVENT_LENGTH * events {
        return Err(Refusal::Length);
    }
    if !all_rising(file, cards) {
        return Err(Refusal::Opening);
    }
    Ok(())
}
