// The end of a commit that passes, in the table: state, end time and the counter of the action's kind.
ghost use Rattle.std.specs.Prelude.{◌≡◌, cond, ◌+◌};
ghost use Rattle.rules.specs.Table.{counter, kind_of};
ghost use Rattle.rules.specs.Commit.{commit_time, end_table};
ghost use Rattle.rows.specs.Row.{HasRow};
ghost use Rattle.rows.specs.Times.{kind_in, number_in, IsTime, CanCount};

use rows::fields::{kind_of, set_state};
use rows::sets::has_writes;
use rows::times::{Time, after, counter, no_end, set_counter, set_end};
use rules::action::State;

// The counter after a commit at this count, by whether it has written anything; and its end time.
fn counter_after(writes: bool, count: Time) -> Time
    requires { CanCount (number_in count) }
    ensures { IsTime result (kind_in count) (cond writes (number_in count + 1) (number_in count)) }
{
    if writes { after(count) } else { count }
}

fn end_time_after(writes: bool, count: Time) -> Time
    requires { CanCount (number_in count) }
    ensures { IsTime result (kind_in count) (cond writes (number_in count + 1) 0) }
{
    if writes { after(count) } else { no_end(count) }
}

// Back comes the end time, as a number.
pub(crate) fn end(table: &mut [u64], n: u64) -> u64
    requires has_row { HasRow table.old n }
    requires can_count { CanCount (counter table.old (kind_of table.old n)) }
    ensures time { result ≡ commit_time table.old n }
    ensures leaves { table.new ≡ end_table table.old n }
{
    let count = counter(table, kind_of(table, n));
    let writes = has_writes(table, n);
    let time = end_time_after(writes, count);
    let next = counter_after(writes, count);
    set_state(table, n, State::Committed);
    set_end(table, n, time);
    set_counter(table, next);
    u64::from(time)
}
