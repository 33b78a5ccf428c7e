// The last block: opening and sum beside closing, for each charge account.
ghost use Rattle.std.specs.Prelude.{◌≡◌};
ghost use mathlib.Core.List.{flat_map};
ghost use Rattle.std.proofs.lemmas.List.Edits.{sets};
ghost use Rattle.rules.specs.Card.{IsBase, IsCharge, charge_accounts};
ghost use Rattle.rules.specs.Tree.{balance_length, block_place, balance_words};
ghost use Rattle.rows.specs.Row.{HasRow};
ghost use Rattle.report.specs.Asked.{HasRoomFor, IsReport};

use amounts::bytes::word_at;
use rows::fields::kept;
use rules::report::{BALANCE_LENGTH, BLOCK_AT, CLOSING_AT, OPENING_AT, SUM_AT};
use rules::store::{ACCOUNTS, FIRST_CHARGE};
use rules::table::HEAD;
use stores::place::base_place;

fn put_balance(table: &[u64], base: &[u8], opening: &[u8], report: &mut [u64], at: usize, k: u64)
    requires has_row { HasRow table.now 0 }
    requires base { IsBase base.now × IsBase opening.now }
    requires charge { IsCharge k }
    requires has_room_for { HasRoomFor balance_length report.old at }
    ensures { report.new
        ≡ sets report.old at
        (balance_words table.now base.now opening.now k) }
{
    report[at] = k;
    report[at + OPENING_AT] = word_at(opening, base_place(k));
    report[at + SUM_AT] = kept(table, HEAD, k);
    report[at + CLOSING_AT] = word_at(base, base_place(k));
}

pub(crate) fn put_block(table: &[u64], base: &[u8], opening: &[u8], report: &mut [u64])
    requires has_row { HasRow table.now 0 }
    requires base { IsBase base.now × IsBase opening.now }
    requires report { IsReport report.old }
    ensures { report.new
        ≡ sets report.old block_place
        (flat_map (balance_words table.now base.now opening.now) charge_accounts) }
{
    for k in FIRST_CHARGE..ACCOUNTS {
        let before = (k - FIRST_CHARGE) as usize;
        put_balance(
            table,
            base,
            opening,
            report,
            BLOCK_AT + BALANCE_LENGTH * before,
            k,
        );
    }
}
