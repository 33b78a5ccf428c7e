// The start of an action.
ghost use Rattle.std.specs.Prelude.{◌≡◌, cond};
ghost use Rattle.rules.specs.Table.{IsAction, is_child_of, with_parent, without_adds, without_kept, without_newest, with_sets};
ghost use Rattle.rules.specs.Free.{next_number};
ghost use Rattle.rules.specs.Sound.{Sound};
ghost use Rattle.rules.specs.Step.{orphaned, give_table};
ghost use Rattle.rows.specs.Row.{HasRow, Scannable};
ghost use Rattle.events.specs.Asked.{HasFreeNumber};

use numbers::free::next_number;
use rows::fields::{highest, parent, set_highest, set_parent, set_state};
use rows::sets::{clear_kept, clear_newest, clear_own_adds, clear_sets};
use rows::times::clear_end;
use rules::action::State;

// Action m, where it was a child of the earlier holder of n, is nobody's.
fn orphan_one(table: &mut [u64], n: u64, m: u64)
    requires { HasRow table.old m }
    ensures { table.new
        ≡ cond (is_child_of table.old n m) (with_parent table.old m m) table.old }
{
    if parent(table, m) == n {
        set_parent(table, m, m);
    }
}

fn orphan(table: &mut [u64], n: u64)
    requires { Scannable table.old }
    ensures { table.new ≡ orphaned table.old n }
{
    let last = highest(table);
    for m in 1..last + 1 {
        orphan_one(table, n, m);
    }
}

// What the row has for each account: nothing added, nothing kept or noted of children, nothing read or written.
fn clear_accounts(table: &mut [u64], n: u64)
    requires { HasRow table.old n }
    ensures { table.new
        ≡ with_sets (without_newest (without_kept (without_adds table.old n) n) n) n
        (λ k. 0) (λ k. 0) (λ k. 0) (λ k. 0) }
{
    clear_own_adds(table, n);
    clear_kept(table, n);
    clear_newest(table, n);
    clear_sets(table, n);
}

// Every field of the new action's row is set, whatever stood there.
#[tactic(auto, unfolding(rules::specs::Step::give_table))]
fn give(table: &mut [u64], n: u64, p: u64)
    requires scannable { Scannable table.old }
    requires action { IsAction n }
    ensures { table.new ≡ give_table table.old n p }
{
    let top = highest(table).max(n);
    orphan(table, n);
    set_highest(table, top);
    set_parent(table, n, p);
    set_state(table, n, State::Live);
    clear_end(table, n);
    clear_accounts(table, n);
}

// The number of the new action.
pub fn start(table: &mut [u64], p: u64) -> u64
    requires sound { Sound table.old }
    requires has_free_number { HasFreeNumber table.old }
    ensures number { result ≡ next_number table.old }
    ensures leaves { table.new ≡ give_table table.old (next_number table.old) p }
{
    let n = next_number(table).unwrap();
    give(table, n, p);
    n
}
