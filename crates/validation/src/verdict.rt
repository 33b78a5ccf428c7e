// What is found against an action that asks to commit, by the table's rule; and the clash of one that enters its queue. The records
// are searched only where a clash is known, to name it.
ghost use Rattle.std.specs.Prelude.{◌≡◌};
ghost use Rattle.rules.specs.Sound.{IsLiveAction, Sound};
ghost use Rattle.rules.specs.Clash.{first_clash};
ghost use Rattle.rules.specs.Verdict.{commit_verdict};

use crate::ahead::first_ahead;
use crate::known::is_known_clash;
use crate::search::first_clash;
use rows::fields::is_forward;
use rules::Found;

pub fn clash_of(table: &[u64], n: u64) -> Option<Found>
    requires sound { Sound table.now }
    requires live_action { IsLiveAction table.now n }
    ensures { result ≡ first_clash table.now n }
{
    if !is_known_clash(table, n) {
        return None;
    }
    first_clash(table, n)
}

pub fn commit_verdict(table: &[u64], n: u64) -> Option<Found>
    requires sound { Sound table.now }
    requires live_action { IsLiveAction table.now n }
    ensures { result ≡ commit_verdict table.now n }
{
    if is_forward(table) {
        return first_ahead(table, n);
    }
    clash_of(table, n)
}
