// The clause on the way up from a live action to the store: there is no ring of parents.
ghost use Rattle.std.specs.Prelude.{◌≡◌};
ghost use Rattle.rules.specs.Sound.{has_way_up};
ghost use Rattle.rows.specs.Row.{HasRow};

use ancestry::way::reaches_store;
use rows::fields::is_live;

#[tactic(auto, unfolding(rules::specs::Sound::has_way_up))]
pub(crate) fn has_way_up(table: &[u64], n: u64) -> bool
    requires { HasRow table.now n }
    ensures { result ≡ has_way_up table.now n }
{
    !is_live(table, n) || reaches_store(table, n)
}
