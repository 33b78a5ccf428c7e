// The words of a table: the one place that turns a row and a field into an index. (Crate `table` reads the head's fields,
// which stand where they are numbered, from buffers of any length.)
ghost use Rattle.std.specs.Prelude.{◌≡◌};
ghost use Rattle.rules.specs.Table.{IsField, word, with_word};
ghost use Rattle.rows.specs.Row.{HasRow};

use rules::table::WIDTH;

#[tactic(auto, unfolding(rules::specs::Table::word))]
pub fn get(table: &[u64], n: u64, f: u64) -> u64
    requires has_row { HasRow table.now n }
    requires field { IsField f }
    ensures { result ≡ word table.now n f }
{
    table[(WIDTH * n + f) as usize]
}

#[tactic(auto, unfolding(rules::specs::Table::with_word))]
pub fn put(table: &mut [u64], n: u64, f: u64, v: u64)
    requires has_row { HasRow table.old n }
    requires field { IsField f }
    ensures { table.new ≡ with_word table.old n f v }
{
    table[(WIDTH * n + f) as usize] = v;
}
