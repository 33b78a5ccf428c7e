// The clauses that speak of one action.
ghost use Rattle.std.specs.Prelude.{◌≡◌, ◌≤◌};
ghost use Rattle.rules.specs.Table.{most_actions, parent_of};
ghost use Rattle.rules.specs.Sound.{has_state, has_parent_known, has_parent_alive, is_sound_action};
ghost use Rattle.rows.specs.Row.{HasRow, Scannable};

use crate::pending::has_pending_written;
use crate::times::{has_end_alone, has_end_in_time, has_read_in_time};
use crate::way::has_way_up;
use rows::fields::{highest, is_live, parent, state};
use rules::action::State;
use rules::table::STORE;

fn has_state(table: &[u64], n: u64) -> bool
    requires { HasRow table.now n }
    ensures { result ≡ has_state table.now n }
{
    let word = state(table, n);
    word == u64::from(State::Live)
        || word == u64::from(State::Committed)
        || word == u64::from(State::Aborted)
}

fn has_parent_known(table: &[u64], n: u64) -> bool
    requires { HasRow table.now n }
    ensures { result ≡ has_parent_known table.now n }
{
    parent(table, n) <= highest(table)
}

fn has_parent_alive(table: &[u64], n: u64) -> bool
    requires has_row { HasRow table.now n }
    requires n_bound { parent_of table.now n ≤ most_actions }
    ensures { result ≡ has_parent_alive table.now n }
{
    if !is_live(table, n) {
        return true;
    }
    let up = parent(table, n);
    up == STORE || is_live(table, up)
}

// Every clause that speaks of one action.
#[tactic(auto, unfolding(rules::specs::Sound::is_sound_action))]
pub(crate) fn is_sound_action(table: &[u64], n: u64) -> bool
    requires scannable { Scannable table.now }
    requires has_row { HasRow table.now n }
    ensures { result ≡ is_sound_action table.now n }
{
    has_state(table, n)
        && has_parent_known(table, n)
        && has_way_up(table, n)
        && has_parent_alive(table, n)
        && has_read_in_time(table, n)
        && has_end_in_time(table, n)
        && has_end_alone(table, n)
        && has_pending_written(table, n)
}
