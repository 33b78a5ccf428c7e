// What an action sees of a charge account, by one walk to the store.
ghost use Rattle.std.specs.Prelude.{◌≡◌};
ghost use Rattle.rules.specs.Card.{IsBase, IsCharge};
ghost use Rattle.amounts.specs.Sum.{value_of};
ghost use Rattle.ancestry.specs.Ancestry.{Readable};
ghost use Rattle.ancestry.specs.Seen.{seen_from, seen_by};

use amounts::bytes::word_at;
use amounts::sum::{Sum, is_amount, of_word, plus};
use rows::fields::{parent, pending};
use rules::table::{NO_MOVES, NO_SUM, STORE};
use stores::place::base_place;

#[derive(Clone, Copy)]
pub struct Seen {
    // how many moves up lead to the store
    pub moves: u64,
    // the word of the sum, where it is an amount
    pub sum: Option<u64>,
}

// What is seen after so many moves, if the sum is this.
fn seen_from(moves: u64, sum: Sum) -> Seen
    ensures { result ≡ seen_from moves (value_of sum) }
{
    Seen {
        moves,
        sum: is_amount(sum).then_some(sum.low),
    }
}

// The pending sums on the way up, and the base amount last.
pub fn seen_by(table: &[u64], base: &[u8], n: u64, k: u64) -> Seen
    requires readable { Readable table.now n k }
    requires charge { IsCharge k × IsBase base.now }
    ensures { result ≡ seen_by table.now base.now n k }
{
    let mut at = n;
    let mut moves = NO_MOVES;
    let mut sum = of_word(NO_SUM);
    while at != STORE {
        sum = plus(sum, pending(table, at, k));
        moves += 1;
        at = parent(table, at);
    }
    let amount = word_at(base, base_place(k));
    seen_from(moves, plus(sum, amount))
}
