// RULES 1.12 and 11.1: the rules by which a table may judge commits, and the numbers by which one is asked for.
ghost use Rattle.std.specs.Prelude.{◌≡◌};
ghost use Rattle.rules.specs.Rule.{rule_number, ReadsRule};

use crate::refusal::Refusal;

// Backward and forward validation.
#[derive(Clone, Copy, PartialEq, Eq)]
pub enum Rule {
    Backward = 1,
    Forward = 2,
}

impl From<Rule> for u64 {
    ghost from_gives = { λ rule number. number ≡ rule_number rule };

    fn from(rule: Rule) -> u64 {
        rule as u64
    }
}

impl TryFrom<u64> for Rule {
    type Error = Refusal;

    ghost try_from_gives = { ReadsRule };

    fn try_from(number: u64) -> Result<Rule, Refusal> {
        match number {
            1 => Ok(Rule::Backward),
            2 => Ok(Rule::Forward),
            _ => Err(Refusal::Rule),
        }
    }
}
