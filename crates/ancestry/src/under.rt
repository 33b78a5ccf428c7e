// Who is below a parent, at whatever depth.
ghost use Rattle.std.specs.Prelude.{◌≡◌};
ghost use Rattle.rules.specs.Walk.{is_under};
ghost use Rattle.rules.specs.Sound.{IsLiveAction};
ghost use Rattle.ancestry.specs.Ancestry.{LiveClimb};

use crate::walk::is_at_or_below;
use rows::fields::parent;
use rules::table::STORE;

// Action x, which is live, is below p.
pub fn is_under(table: &[u64], p: u64, x: u64) -> bool
    requires live_climb { LiveClimb table.now }
    requires live_action { IsLiveAction table.now x }
    ensures { result ≡ is_under table.now p x }
{
    if p == STORE {
        return true;
    }
    let above = parent(table, x);
    if above == STORE {
        return false;
    }
    is_at_or_below(table, p, above)
}
