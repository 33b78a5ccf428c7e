// Causes 9 and 16 to 19: a live child, the queues, and the end times that are left.
ghost use Rattle.std.specs.Prelude.{◌≡◌, cond};
ghost use Rattle.rules.specs.Queue.{is_waiting};
ghost use Rattle.rules.specs.Sound.{IsGiven, Sound};
ghost use Rattle.rules.specs.Cause.{first_cause, queued_cause};
ghost use Rattle.rules.specs.Refusal.{refusal_of};
ghost use Rattle.causes.specs.Groups.{busy_causes, time_causes, enter_causes, commit_causes, judge_causes};

use ancestry::children::has_live_child;
use queue::find::{is_queued, is_queued_ready, is_waiting};
use rows::entries::queue_length;
use rows::fields::kind_of;
use rows::times::has_times_left;
use rules::queue::FIRST_POSITION;
use rules::refusal::Refusal;

pub(crate) fn queued_cause(table: &[u64], number: u64) -> Result<(), Refusal>
    requires { Sound table.now }
    ensures { refusal_of result ≡ cond (is_waiting table.now number) queued_cause 0 }
{
    if is_waiting(table, number) {
        return Err(Refusal::Queued);
    }
    Ok(())
}

// Causes 9 and 16.
#[tactic(auto, unfolding(crate::specs::Groups::busy_causes))]
pub(crate) fn busy_cause(table: &[u64], number: u64) -> Result<(), Refusal>
    requires { Sound table.now }
    ensures { refusal_of result ≡ first_cause (busy_causes table.now number) }
{
    if has_live_child(table, number) {
        return Err(Refusal::ChildLive);
    }
    queued_cause(table, number)
}

// Cause 19: those who wait in the queue of the action's kind leave no end time for one more.
fn time_cause(table: &[u64], number: u64) -> Result<(), Refusal>
    requires sound { Sound table.now }
    requires given { IsGiven table.now number }
    ensures { refusal_of result ≡ first_cause (time_causes table.now number) }
{
    let h = kind_of(table, number);
    if !has_times_left(table, h, queue_length(table, h) + 1) {
        return Err(Refusal::Time);
    }
    Ok(())
}

// Causes 9, 16 and 19.
#[tactic(auto, unfolding(crate::specs::Groups::enter_causes), using(crate::proofs::Grouped::busy_passed))]
pub(crate) fn enter_cause(table: &[u64], number: u64) -> Result<(), Refusal>
    requires sound { Sound table.now }
    requires given { IsGiven table.now number }
    ensures { refusal_of result ≡ first_cause (enter_causes table.now number) }
{
    busy_cause(table, number)?;
    time_cause(table, number)
}

// Causes 9, 16, 18, which asks of the same queue, and 19.
#[tactic(auto, unfolding(crate::specs::Groups::commit_causes), using(crate::proofs::Grouped::busy_passed))]
pub(crate) fn commit_cause(table: &[u64], number: u64) -> Result<(), Refusal>
    requires sound { Sound table.now }
    requires given { IsGiven table.now number }
    ensures { refusal_of result ≡ first_cause (commit_causes table.now number) }
{
    busy_cause(table, number)?;
    if FIRST_POSITION <= queue_length(table, kind_of(table, number)) {
        return Err(Refusal::Queue);
    }
    time_cause(table, number)
}

// Cause 17, of that queue too.
pub(crate) fn judge_cause(table: &[u64], number: u64) -> Result<(), Refusal>
    requires sound { Sound table.now }
    requires given { IsGiven table.now number }
    ensures { refusal_of result ≡ first_cause (judge_causes table.now number) }
{
    let h = kind_of(table, number);
    if !is_queued(table, h, number) || is_queued_ready(table, h, number) {
        return Err(Refusal::Judge);
    }
    Ok(())
}
