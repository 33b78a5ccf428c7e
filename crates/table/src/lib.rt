// A new table, and a table's three numbers: all that a caller asks of a table outside of events.
#![tactic(auto)]

ghost use Rattle.std.specs.Prelude.{◌≡◌};
ghost use Rattle.rules.specs.Kind.{top_kind, sub_kind};
ghost use Rattle.rules.specs.Refusal.{refusal_of};
ghost use Rattle.rules.specs.Table.{new_table, word, highest, counter};
ghost use Rattle.table.specs.Open.{IsTableLong, open_cause, open_table};

use rules::action::Kind;
use rules::refusal::Refusal;
use rules::rule::Rule;
use rules::table::{COUNTER_FIELDS, FORWARD_WORD, HIGHEST_FIELD, RULE_FIELD, TABLE_LENGTH};

// The head is the table's first row, so that its fields stand where they are numbered.
const HIGHEST_AT: usize = HIGHEST_FIELD as usize;

const TOP_COUNTER_AT: usize = (COUNTER_FIELDS + Kind::Top as u64) as usize;

const SUB_COUNTER_AT: usize = (COUNTER_FIELDS + Kind::Sub as u64) as usize;

const RULE_AT: usize = RULE_FIELD as usize;

// All zeros, which is a new table under rule 1.
fn clear(table: &mut [u64])
    requires { IsTableLong table.old }
    ensures { table.new ≡ new_table }
{
    table.fill(0);
}

// A new table in a lent buffer, whatever stood there, under the rule that is asked or, where that is none, under rule 1. A buffer
// of another length stays as it was.
#[tactic(auto, unfolding(rules::specs::Table::new_table_under, rules::specs::Table::with_word))]
pub fn open(table: &mut [u64], rule: u64) -> Result<(), Refusal>
    ensures cause { refusal_of result ≡ open_cause table.old rule }
    ensures leaves { table.new ≡ open_table table.old rule }
{
    if table.len() != TABLE_LENGTH {
        return Err(Refusal::Unsound);
    }
    clear(table);
    if Rule::try_from(rule)? == Rule::Forward {
        table[RULE_AT] = FORWARD_WORD;
    }
    Ok(())
}

// A word of the head, of any table: 0 where it has no such word.
#[tactic(auto, unfolding(rules::specs::Table::word))]
fn head_word(table: &[u64], at: usize) -> u64
    ensures { result ≡ word table.now 0 at }
{
    table.get(at).copied().unwrap_or(0)
}

// The highest number given, of any table: 0 where it has no such word.
pub fn highest(table: &[u64]) -> u64
    ensures { result ≡ highest table.now }
{
    head_word(table, HIGHEST_AT)
}

// The topactions' counter, of any table: 0 where it has no such word.
pub fn top_counter(table: &[u64]) -> u64
    ensures { result ≡ counter table.now top_kind }
{
    head_word(table, TOP_COUNTER_AT)
}

// The subactions' counter, of any table: 0 where it has no such word.
pub fn sub_counter(table: &[u64]) -> u64
    ensures { result ≡ counter table.now sub_kind }
{
    head_word(table, SUB_COUNTER_AT)
}
