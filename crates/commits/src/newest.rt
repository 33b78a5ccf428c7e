// The newest end times: a commit notes the end time of the one that commits, at its parent or, of a topaction, as the store's.
ghost use Rattle.std.specs.Prelude.{◌≡◌};
ghost use Rattle.rules.specs.Card.{IsAccount};
ghost use Rattle.rules.specs.Table.{with_newest};
ghost use Rattle.rules.specs.Commit.{newest_after, note_table};
ghost use Rattle.rows.specs.Row.{HasRow, AreTwo};
ghost use Rattle.rows.specs.Times.{IsChild};

use rows::fields::has_written;
use rows::times::newest::note_end;
use rules::store::ACCOUNTS;

// Where n hasn't written the account, another child's end time stays.
fn note_one(table: &mut [u64], n: u64, p: u64, k: u64)
    requires has_row { HasRow table.old n }
    requires has_row_2 { HasRow table.old p }
    requires account { IsAccount k }
    requires child { IsChild table.old n p }
    ensures { table.new
        ≡ with_newest table.old p k (newest_after table.old n p k) }
{
    if !has_written(table, n, k) {
        return;
    }
    note_end(table, n, p, k);
}

// n's end time noted in row p.
pub(crate) fn note_ends(table: &mut [u64], n: u64, p: u64)
    requires has_row { HasRow table.old n }
    requires has_row_2 { HasRow table.old p }
    requires are_two { AreTwo n p }
    requires child { IsChild table.old n p }
    ensures { table.new ≡ note_table table.old n p }
{
    for k in 0..ACCOUNTS {
        note_one(table, n, p, k);
    }
}
