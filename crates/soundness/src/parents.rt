// The clause that newest end times tell live reads the truth (told.rt), of every parent. Where nobody live is below a parent it says
// nothing, so the store is tested and the parents of live actions, each once.
ghost use Rattle.std.specs.Prelude.{◌≡◌};
ghost use Rattle.rules.specs.Range.{all};
ghost use Rattle.rules.specs.Table.{parents};
ghost use Rattle.rules.specs.Sound.{are_newest_true, IsGiven};
ghost use Rattle.rows.specs.Row.{HasRow};
ghost use Rattle.ancestry.specs.Ancestry.{LiveClimb};
ghost use Rattle.soundness.specs.Passed.{is_true_above, with_passed, ArePassed, LiveParents, HasParentRow};

use crate::told::are_newest_true;
use rows::fields::{highest, is_live, parent};
use rules::table::STORE;

// The store and the actions: which of them have passed the test, by their numbers.
const MOST_PARENTS: usize = 65;

// One that has passed isn't tested again.
#[tactic(auto, unfolding(crate::specs::Passed::is_true_above))]
fn is_true_above(table: &[u64], m: u64, passed: &[bool; MOST_PARENTS]) -> bool
    requires live_climb { LiveClimb table.now }
    requires live_parents { LiveParents table.now }
    requires given { IsGiven table.now m }
    requires are_passed { ArePassed table.now passed.now }
    ensures { result ≡ is_true_above table.now m }
{
    if !is_live(table, m) {
        return true;
    }
    let p = parent(table, m);
    passed[p as usize] || are_newest_true(table, p)
}

fn pass_parent(passed: &mut [bool; MOST_PARENTS], table: &[u64], m: u64)
    requires has_row { HasRow table.now m }
    requires has_parent_row { HasParentRow table.now m }
    ensures { passed.new ≡ with_passed table.now m passed.old }
{
    if is_live(table, m) {
        let p = parent(table, m);
        passed[p as usize] = true;
    }
}

// A for: each turn marks who has passed, which the next one asks.
pub(crate) fn all_parents_true(table: &[u64]) -> bool
    requires live_climb { LiveClimb table.now }
    requires live_parents { LiveParents table.now }
    ensures { result ≡ all (are_newest_true table.now) (parents table.now) }
{
    if !are_newest_true(table, STORE) {
        return false;
    }
    let last = highest(table);
    let mut passed = [false; MOST_PARENTS];
    passed[STORE as usize] = true;
    for m in 1..last + 1 {
        if !is_true_above(table, m, &passed) {
            return false;
        }
        pass_parent(&mut passed, table, m);
    }
    true
}
