// The read set and the write set of a child joined to its parent's.
ghost use Rattle.std.specs.Prelude.{◌≡◌};
ghost use Rattle.rules.specs.Card.{accounts, IsAccount};
ghost use Rattle.rules.specs.Table.{with_fields, with_reads, write_field};
ghost use Rattle.rules.specs.Commit.{passes_read, joined_read, joined_time, joined_write, join_table};
ghost use Rattle.rows.specs.Row.{HasRow, AreTwo};
ghost use Rattle.rows.specs.Times.{with_joined_read};

use crate::fields::{has_card, has_read, has_written, set_write_entry, write_entry};
use crate::times::of_kind::{SubTime, TopTime};
use rules::store::ACCOUNTS;
use rules::table::ENTERED;

// n's read is passed to its parent p, which must still have its own write entry: where that is a card, the read stays behind.
fn passes_read(table: &[u64], n: u64, p: u64, k: u64) -> bool
    requires has_row { HasRow table.now n }
    requires has_row_2 { HasRow table.now p }
    requires account { IsAccount k }
    ensures { result ≡ passes_read table.now n p k }
{
    has_read(table, n, k) && !has_card(table, p, k)
}

// n's read of the account joined to p's: both times are told before either is put, since a read entry says whether p has a read.
#[tactic(auto, using(crate::proofs::Joining::read_stays))]
fn join_read(table: &mut [u64], n: u64, p: u64, k: u64)
    requires has_row { HasRow table.old n }
    requires has_row_2 { HasRow table.old p }
    requires account { IsAccount k }
    ensures { table.new ≡ with_joined_read table.old n p k }
{
    if !passes_read(table, n, p, k) {
        return;
    }
    let top = TopTime::read(table, n, k).sooner_read(table, p, k);
    let sub = SubTime::read(table, n, k).sooner_read(table, p, k);
    top.set_read(table, p, k);
    sub.set_read(table, p, k);
}

fn joined_write(table: &[u64], n: u64, p: u64, k: u64) -> u64
    requires has_row { HasRow table.now n }
    requires has_row_2 { HasRow table.now p }
    requires account { IsAccount k }
    ensures { result ≡ joined_write table.now n p k }
{
    if has_written(table, n, k) {
        return ENTERED;
    }
    write_entry(table, p, k)
}

// n's reads passed to p.
fn join_reads(table: &mut [u64], n: u64, p: u64)
    requires has_row { HasRow table.old n }
    requires has_row_2 { HasRow table.old p }
    requires are_two { AreTwo n p }
    ensures { table.new
        ≡ with_reads table.old p (joined_read table.old n p) (joined_time table.old n p) }
{
    for k in 0..ACCOUNTS {
        join_read(table, n, p, k);
    }
}

// n's write set joined to p's.
fn join_writes(table: &mut [u64], n: u64, p: u64)
    requires has_row { HasRow table.old n }
    requires has_row_2 { HasRow table.old p }
    requires are_two { AreTwo n p }
    ensures { table.new
        ≡ with_fields table.old p write_field accounts (joined_write table.old n p) }
{
    for k in 0..ACCOUNTS {
        let joined = joined_write(table, n, p, k);
        set_write_entry(table, p, k, joined);
    }
}

// n's sets joined to those of its parent p. The reads come first: they go by the cards that p has before it gets n's.
#[tactic(auto, using(crate::proofs::Joining::both_joined))]
pub fn join_sets(table: &mut [u64], n: u64, p: u64)
    requires has_row { HasRow table.old n }
    requires has_row_2 { HasRow table.old p }
    requires are_two { AreTwo n p }
    ensures { table.new ≡ join_table table.old n p }
{
    join_reads(table, n, p);
    join_writes(table, n, p);
}
