// The opening base store.
ghost use Rattle.std.specs.Prelude.{◌≡◌, ◌+◌, ◌≤◌, ◌<◌, length};
ghost use Rattle.rules.specs.Card.{IsAccount, IsBase, base_place, with_card};
ghost use Rattle.dayread.specs.File.{most_cards, account_place, account_at, opening_card};
ghost use Rattle.dayread.specs.Opening.{IsFaultless, opening_base};

use crate::reader::byte_at;
use rules::day::{ACCOUNT_LENGTH, CARD_COUNT_LENGTH, ENTRY_LENGTH};
use rules::store::CARD_LENGTH;
use stores::cards::copy_card;

// The ith opening card put at its account.
fn put_opening(file: &[u8], base: &mut [u8], i: usize)
    requires i_lt_most_cards { (i < most_cards) × (account_place (i + 1) ≤ length file.now) }
    requires account { IsAccount (account_at file.now i) }
    requires base { IsBase base.old }
    ensures { base.new
        ≡ with_card base.old (base_place (account_at file.now i)) (opening_card file.now i) }
{
    let entry = CARD_COUNT_LENGTH + ENTRY_LENGTH * i;
    let account = byte_at(file, entry);
    copy_card(base, CARD_LENGTH * account, file, entry + ACCOUNT_LENGTH);
}

pub fn open_base(file: &[u8], base: &mut [u8])
    requires faultless { IsFaultless file.now }
    requires base { IsBase base.old }
    ensures { base.new ≡ opening_base file.now }
{
    base.fill(0);
    let count = byte_at(file, 0);
    for i in 0..count {
        put_opening(file, base, i);
    }
}
