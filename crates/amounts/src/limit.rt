// The limit of what an event may add or take away.
ghost use Rattle.std.specs.Prelude.{◌≡◌};
ghost use Rattle.rules.specs.Amount.{amount_of, is_addable};

use rules::amount::MOST_ADDED;

// The last words stand for the amounts from -1 down.
pub fn is_addable(word: u64) -> bool
    ensures { result ≡ is_addable (amount_of word) }
{
    let from_zero = word <= MOST_ADDED;
    let below_zero = u64::MAX - word < MOST_ADDED;
    from_zero || below_zero
}
