// The test for a sound table: the clauses on the whole of it, those of each action, those on the queues, and those on newest end
// times.
ghost use Rattle.std.specs.Prelude.{◌≡◌};
ghost use Rattle.rules.specs.Range.{all};
ghost use Rattle.rules.specs.Action.{kind_number};
ghost use Rattle.rules.specs.Kind.{kinds};
ghost use Rattle.rules.specs.Table.{actions};
ghost use Rattle.rules.specs.Sound.{is_bounded, is_sound_action, sound};
ghost use Rattle.rows.specs.Row.{HasRow, Scannable};

use crate::action::is_sound_action;
use crate::newest::are_newest_in_time;
use crate::parents::all_parents_true;
use crate::queue::are_sound_queues;
use rows::entries::queue_length;
use rows::fields::{has_rule, highest};
use rows::times::has_times_left;
use rules::action::Kind;
use rules::table::{MOST_ACTIONS, TABLE_LENGTH};

#[tactic(auto, unfolding(rules::specs::Sound::is_bounded))]
fn is_bounded(table: &[u64], h: Kind) -> bool
    requires { HasRow table.now 0 }
    ensures { result ≡ is_bounded table.now (kind_number h) }
{
    has_times_left(table, h, queue_length(table, h))
}

#[tactic(auto, using(crate::proofs::BothKinds::both_kinds))]
fn are_bounded(table: &[u64]) -> bool
    requires { HasRow table.now 0 }
    ensures { result ≡ all (is_bounded table.now) kinds }
{
    is_bounded(table, Kind::Top) && is_bounded(table, Kind::Sub)
}

fn all_sound(table: &[u64]) -> bool
    requires { Scannable table.now }
    ensures { result ≡ all (is_sound_action table.now) (actions table.now) }
{
    (1..highest(table) + 1).all(|n| is_sound_action(table, n))
}

#[tactic(auto, using(crate::proofs::LiveActions::live_climb, crate::proofs::LiveActions::live_parents), unfolding(rules::specs::Sound::sound))]
pub fn is_sound(table: &[u64]) -> bool
    ensures { result ≡ sound table.now }
{
    table.len() == TABLE_LENGTH
        && highest(table) <= MOST_ACTIONS
        && has_rule(table)
        && are_bounded(table)
        && all_sound(table)
        && are_sound_queues(table)
        && are_newest_in_time(table)
        && all_parents_true(table)
}
