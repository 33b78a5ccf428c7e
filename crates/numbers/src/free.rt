// The numbers that are free.
ghost use Rattle.std.specs.Prelude.{◌≡◌};
ghost use Rattle.rules.specs.Free.{is_free};
ghost use Rattle.rules.specs.Sound.{IsGiven, Sound};
ghost use Rattle.numbers.specs.Number.{number_left};

use crate::needed::is_needed;
use rows::fields::{highest, is_live};
use rules::table::MOST_ACTIONS;

#[tactic(auto, unfolding(rules::specs::Free::is_free))]
fn is_free(table: &[u64], m: u64) -> bool
    requires sound { Sound table.now }
    requires given { IsGiven table.now m }
    ensures { result ≡ is_free table.now m }
{
    !is_live(table, m) && !is_needed(table, m)
}

// The number that a start gives: the lowest that is free, or none.
pub fn next_number(table: &[u64]) -> Option<u64>
    requires { Sound table.now }
    ensures { result ≡ number_left table.now }
{
    let last = highest(table);
    for m in 1..last + 1 {
        if is_free(table, m) {
            return Some(m);
        }
    }
    (last < MOST_ACTIONS).then_some(last + 1)
}
