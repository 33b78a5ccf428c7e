// Whether the record of an action is needed.
ghost use Rattle.std.specs.Prelude.{◌≡◌, ◌&&◌, ltb};
ghost use Rattle.rules.specs.Card.{IsAccount};
ghost use Rattle.rules.specs.Range.{any};
ghost use Rattle.rules.specs.Table.{kind_of, end_time, has_read, read_time, actions};
ghost use Rattle.rules.specs.Free.{has_read_before, needs, is_store_or_live, is_needed};
ghost use Rattle.rules.specs.Sound.{IsGiven, Sound};
ghost use Rattle.rows.specs.Row.{HasRow};

use ancestry::under::is_under;
use rows::fields::{has_read, highest, is_live, parent};
use rows::sets::has_ended;
use rows::times::read_before_end;
use rules::store::ACCOUNTS;
use rules::table::STORE;

// x has read the account before the end of m.
fn is_early(table: &[u64], m: u64, x: u64, k: u64) -> bool
    requires has_row { HasRow table.now m }
    requires has_row_2 { HasRow table.now x }
    requires account { IsAccount k }
    ensures { result ≡ (has_read table.now x k
        && ltb (read_time table.now (kind_of table.now m) x k) (end_time table.now m)) }
{
    has_read(table, x, k) && read_before_end(table, x, m, k)
}

fn has_read_before(table: &[u64], m: u64, x: u64) -> bool
    requires has_row { HasRow table.now m }
    requires has_row_2 { HasRow table.now x }
    ensures { result
        ≡ has_read_before table.now (kind_of table.now m) (end_time table.now m) x }
{
    (0..ACCOUNTS).any(|k| is_early(table, m, x, k))
}

// The reads first: most actions have none from before m's end, and they cost no walk.
#[tactic(auto, unfolding(rules::specs::Free::needs))]
fn needs(table: &[u64], m: u64, x: u64) -> bool
    requires sound { Sound table.now }
    requires given { IsGiven table.now m }
    requires given_2 { IsGiven table.now x }
    ensures { result ≡ needs table.now m x }
{
    is_live(table, x) && has_read_before(table, m, x) && is_under(table, parent(table, m), x)
}

fn is_store_or_live(table: &[u64], p: u64) -> bool
    requires { HasRow table.now p }
    ensures { result ≡ is_store_or_live table.now p }
{
    p == STORE || is_live(table, p)
}

// A live action needs the record m.
fn has_need(table: &[u64], m: u64) -> bool
    requires sound { Sound table.now }
    requires given { IsGiven table.now m }
    ensures { result ≡ any (needs table.now m) (actions table.now) }
{
    (1..highest(table) + 1).any(|x| needs(table, m, x))
}

#[tactic(auto, unfolding(rules::specs::Free::is_needed))]
pub(crate) fn is_needed(table: &[u64], m: u64) -> bool
    requires sound { Sound table.now }
    requires given { IsGiven table.now m }
    ensures { result ≡ is_needed table.now m }
{
    has_ended(table, m) && is_store_or_live(table, parent(table, m)) && has_need(table, m)
}
