// An action enters the queue of its kind: its verdict is settled now, and nobody sees it yet.
ghost use Rattle.std.specs.Prelude.{◌≡◌};
ghost use Rattle.rules.specs.Table.{kind_of};
ghost use Rattle.rules.specs.Sound.{MayWait, Sound};
ghost use Rattle.rules.specs.Step.{enter_table};
ghost use Rattle.judging.specs.Asked.{IsUnqueued};

use crate::verdict::verdict;
use queue::change::put_tail;
use rows::fields::kind_of;

pub fn enter(table: &mut [u64], n: u64)
    requires sound { Sound table.old }
    requires may_wait { MayWait table.old (kind_of table.old n) n }
    requires unqueued { IsUnqueued table.old n }
    ensures { table.new ≡ enter_table table.old n }
{
    let h = kind_of(table, n);
    let settled = verdict(table, h, n);
    put_tail(table, h, n, u64::from(settled));
}
