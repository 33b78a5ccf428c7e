// A look: the card at the nearest version.
ghost use Rattle.std.specs.Prelude.{◌≡◌, ◌≤◌};
ghost use Rattle.rules.specs.Card.{IsAccount, StoresFit};
ghost use Rattle.rules.specs.Look.{bytes_of, card_part, look, looked_card};
ghost use Rattle.rules.specs.Refusal.{refusal_of};
ghost use Rattle.rules.specs.Table.{most_actions};
ghost use Rattle.engine.specs.Place.{IsPart};

use crate::sight::sight_of;
use rules::refusal::Refusal;
use rules::store::CARD_LENGTH;
use rules::table::{NO_MOVES, STORE};
use stores::place::{base_place, shadow_place};

// What a look gives. The cause stands beside the rest, and not in its place: by RULES 3.2 a refused look has a part and moves too.
#[derive(Clone, Copy)]
pub struct Looked<'a> {
    pub cause: Result<(), Refusal>,
    // a part of the lent base or shadow slice; of a refused look that of no bytes where the base slice begins
    pub part: &'a [u8],
    // how many moves up the card was found, none of a refused look
    pub moves: u64,
}

// The card that the holder of a version has for the account.
fn held_card<'a>(base: &'a [u8], shadow: &'a [u8], holder: u64, k: u64) -> &'a [u8]
    requires stores_fit { StoresFit base.now shadow.now }
    requires holder { holder ≤ most_actions }
    requires account { IsAccount k }
    ensures bytes { result.now ≡ bytes_of base.now shadow.now (card_part holder k) }
    ensures place { IsPart base.entry shadow.entry (card_part holder k) result }
{
    if holder == STORE {
        let from = base_place(k);
        return &base[from..from + CARD_LENGTH];
    }
    let from = shadow_place(holder, k);
    &shadow[from..from + CARD_LENGTH]
}

pub fn look<'a>(table: &[u64], base: &'a [u8], shadow: &'a [u8], n: u64, k: u64) -> Looked<'a>
    ensures cause { refusal_of result.cause
        ≡ (look table.now base.now shadow.now n k).cause }
    ensures moves { result.moves
        ≡ (look table.now base.now shadow.now n k).moves }
    ensures bytes { result.part.now
        ≡ looked_card table.now base.now shadow.now n k }
    ensures place { IsPart base.entry shadow.entry
        (look table.now base.now shadow.now n k).part result.part }
{
    match sight_of(table, base, shadow, n, k) {
        Ok(found) => Looked {
            cause: Ok(()),
            part: held_card(base, shadow, found.holder, k),
            moves: found.moves,
        },
        Err(refusal) => Looked {
            cause: Err(refusal),
            part: &base[0..0],
            moves: NO_MOVES,
        },
    }
}
