// The newest end times of a parent's children, an account each: those under the store are topactions', those under an action
// subactions'.
ghost use Rattle.std.specs.Prelude.{◌≡◌, ltb};
ghost use Rattle.rules.specs.Card.{IsAccount};
ghost use Rattle.rules.specs.Kind.{kind_under};
ghost use Rattle.rules.specs.Table.{end_time, read_time, newest, with_newest};
ghost use Rattle.rows.specs.Row.{HasRow};
ghost use Rattle.rows.specs.Times.{HasRead, IsChild};

use crate::fields::kind_under;
use crate::times::of_kind::{SubTime, TopTime};
use rules::action::Kind;

// n's read of the account is from before p's newest end time for it: the time of the read is that of the kind of p's children.
pub fn read_before_newest(table: &[u64], n: u64, p: u64, k: u64) -> bool
    requires has_row { HasRow table.now n }
    requires has_row_2 { HasRow table.now p }
    requires account { IsAccount k }
    requires has_read { HasRead table.now n k }
    ensures { result ≡ ltb (read_time table.now (kind_under p) n k) (newest table.now p k) }
{
    match kind_under(p) {
        Kind::Top => TopTime::read(table, n, k) < TopTime::newest(table, p, k),
        Kind::Sub => SubTime::read(table, n, k) < SubTime::newest(table, p, k),
    }
}

// p's newest end time for the account is that of its child n.
pub fn note_end(table: &mut [u64], n: u64, p: u64, k: u64)
    requires has_row { HasRow table.old n }
    requires has_row_2 { HasRow table.old p }
    requires account { IsAccount k }
    requires child { IsChild table.old n p }
    ensures { table.new ≡ with_newest table.old p k (end_time table.old n) }
{
    match kind_under(p) {
        Kind::Top => TopTime::end(table, n).set_newest(table, p, k),
        Kind::Sub => SubTime::end(table, n).set_newest(table, p, k),
    }
}
