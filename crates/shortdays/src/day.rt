// The short day at a place, in one call.
ghost use Rattle.std.specs.Prelude.{◌≡◌, ◌≤◌, IfOk};
ghost use Rattle.rules.specs.Refusal.{refusal_of};
ghost use Rattle.rules.specs.Rule.{rule_number};
ghost use Rattle.enumeration.specs.ShortDay.{most_short};
ghost use Rattle.enumeration.specs.Lists.{short_days};
ghost use Rattle.shortdays.specs.Written.{IsShortLong};
ghost use Rattle.shortdays.specs.Search.{IsDaySought};
ghost use Rattle.shortdays.specs.Call.{short_cause, short_answer, short_list};

use crate::search::seek;
use rules::event::EVENT_LENGTH;
use rules::refusal::Refusal;
use rules::rule::Rule;
use rules::store::{BASE_LENGTH, SHADOW_LENGTH};
use rules::table::TABLE_LENGTH;

// How many events a short day has at most, and the bytes of the longest.
pub(crate) const MOST: usize = 6;

pub const LENGTH: usize = EVENT_LENGTH * MOST;

// Why the call is refused or, where it is not, the rule that is asked.
fn short_cause(k: u64, rule: u64) -> Result<Rule, Refusal>
    ensures cause { refusal_of result ≡ short_cause k rule }
    ensures rule { IfOk result (λ asked. rule_number asked ≡ rule) }
{
    let asked = Rule::try_from(rule)?;
    if (MOST as u64) < k {
        return Err(Refusal::LongDay);
    }
    Ok(asked)
}

// The search from a new table over stores of zeros, which are its own. A short day of no events is the empty list.
fn find(list: &mut [u8], k: usize, rule: Rule, place: u64) -> Result<(), u64>
    requires short_long { IsShortLong list.old }
    requires k_le_most_short { k ≤ most_short }
    ensures { IsDaySought (short_days k (rule_number rule)) place k list.new result }
{
    if k == 0 {
        if place == 0 {
            return Ok(());
        }
        return Err(place - 1);
    }
    let mut table = [0; TABLE_LENGTH];
    let mut base = [0; BASE_LENGTH];
    let mut shadow = [0; SHADOW_LENGTH];
    table::open(&mut table, u64::from(rule)).unwrap();
    seek(
        &mut table,
        &mut base,
        &mut shadow,
        list,
        rule,
        0,
        k,
        0,
        place,
    )
}

// RULES 15.4: whether there is a short day at the place; then it is written. It is searched for in a buffer of the call's own, so
// that the lent one stays where there is none.
pub fn short_day(k: u64, rule: u64, place: u64, list: &mut [u8; LENGTH]) -> Result<bool, Refusal>
    ensures answer { result ≡ short_answer k rule place }
    ensures list { list.new ≡ short_list k rule place list.old }
{
    let asked = short_cause(k, rule)?;
    let events = k as usize;
    let mut found = [0; LENGTH];
    match find(&mut found, events, asked, place) {
        Ok(()) => {
            let end = EVENT_LENGTH * events;
            list[..end].copy_from_slice(&found[..end]);
            Ok(true)
        }
        Err(_) => Ok(false),
    }
}
