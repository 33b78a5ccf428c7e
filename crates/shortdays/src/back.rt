// The ledger brought back to where the first events of a list lead.
ghost use Rattle.std.specs.Prelude.{◌≡◌, take, ◌*◌};
ghost use Rattle.rules.specs.Card.{StoresFit};
ghost use Rattle.rules.specs.Ledger.{ledger_of};
ghost use Rattle.rules.specs.Encoding.{event_length, events_in};
ghost use Rattle.rules.specs.Run.{run};
ghost use Rattle.rules.specs.Rule.{rule_number};
ghost use Rattle.rules.specs.Serial.Demand.{opening_under};
ghost use Rattle.table.specs.Open.{IsTableLong};
ghost use Rattle.shortdays.specs.Written.{HasEvents};

use crate::day::MOST;
use rules::event::EVENT_LENGTH;
use rules::kind::ANSWER_LENGTH;
use rules::rule::Rule;
use stores::cards::clear;

const ANSWERS_LENGTH: usize = ANSWER_LENGTH * MOST;

// A new table over stores of zeros, and the first p events run again.
pub(crate) fn bring_back(
    table: &mut [u64],
    base: &mut [u8],
    shadow: &mut [u8],
    rule: Rule,
    list: &[u8],
    p: usize,
)
    requires table_long { IsTableLong table.old }
    requires stores_fit { StoresFit base.old shadow.old }
    requires has_events { HasEvents list.now p }
    ensures { ledger_of table.new base.new shadow.new
        ≡ (run (opening_under (rule_number rule)) (events_in (take (event_length * p) list.now))).after }
{
    table::open(table, u64::from(rule)).unwrap();
    clear(base);
    clear(shadow);
    let end = EVENT_LENGTH * p;
    let mut answers = [0; ANSWERS_LENGTH];
    lists::run::run(table, base, shadow, &list[0..end], &mut answers).unwrap();
}
