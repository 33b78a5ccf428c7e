// The children of a parent.
ghost use Rattle.std.specs.Prelude.{◌≡◌};
ghost use Rattle.rules.specs.Table.{is_live_child_of, has_live_child};
ghost use Rattle.rows.specs.Row.{HasRow, Scannable};

use rows::fields::{highest, is_live, parent};

fn is_live_child(table: &[u64], p: u64, m: u64) -> bool
    requires { HasRow table.now m }
    ensures { result ≡ is_live_child_of table.now p m }
{
    parent(table, m) == p && is_live(table, m)
}

pub fn has_live_child(table: &[u64], p: u64) -> bool
    requires { Scannable table.now }
    ensures { result ≡ has_live_child table.now p }
{
    (1..highest(table) + 1).any(|m| is_live_child(table, p, m))
}
