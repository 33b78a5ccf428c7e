// Exact sums of amounts: the words are added up, and their carries and signs are counted.
ghost use Rattle.std.specs.Prelude.{◌≡◌};
ghost use Rattle.rules.specs.Amount.{is_amount};
ghost use Rattle.amounts.specs.Sum.{value_of, sum_of, plus_word, HasRoom};

use rules::amount::SIGN;

// It stands for low + carries * 2^64 - negatives * 2^64.
#[derive(Clone, Copy)]
pub struct Sum {
    pub low: u64,
    pub carries: u64,
    // how many of the words stand for an amount below 0
    pub negatives: u64,
}

#[tactic(auto, unfolding(crate::specs::Sum::sum_of))]
pub fn of_word(word: u64) -> Sum
    ensures { result ≡ sum_of word }
{
    Sum {
        low: word,
        carries: 0,
        negatives: word / SIGN,
    }
}

#[tactic(auto, unfolding(crate::specs::Sum::plus_word))]
pub fn plus(sum: Sum, word: u64) -> Sum
    requires { HasRoom sum }
    ensures { result ≡ plus_word sum word }
{
    let negatives = sum.negatives + word / SIGN;
    let (low, carried) = sum.low.carrying_add(word, false);
    Sum {
        low,
        carries: sum.carries + u64::from(carried),
        negatives,
    }
}

// Below 0 one sign more is counted than carries.
pub fn is_amount(sum: Sum) -> bool
    ensures { result ≡ is_amount (value_of sum) }
{
    if sum.low < SIGN {
        sum.carries == sum.negatives
    } else {
        sum.carries < sum.negatives && sum.negatives - sum.carries == 1
    }
}
