// The clauses on times, of one action: its reads, and its end.
ghost use Rattle.std.specs.Prelude.{◌≡◌};
ghost use Rattle.rules.specs.Action.{kind_number};
ghost use Rattle.rules.specs.Sound.{has_times_in, has_read_in_time, has_end_in_time, ends_under_another, shares_end_time, has_end_alone};
ghost use Rattle.rows.specs.Row.{HasRow};

use rows::fields::{is_live, parent};
use rows::sets::has_ended;
use rows::times::{counter, end_together, ends_in_time, is_in_time, later_read};
use rules::action::Kind;
use rules::store::ACCOUNTS;

// The latest time alone is compared with the counter; it is the counter itself where no read is later.
fn has_times_in(table: &[u64], n: u64, h: Kind) -> bool
    requires { HasRow table.now n }
    ensures { result ≡ has_times_in table.now n (kind_number h) }
{
    let first = counter(table, h);
    let latest = (0..ACCOUNTS).fold(first, |latest, k| later_read(table, n, k, latest));
    is_in_time(table, latest)
}

#[tactic(auto, using(crate::proofs::BothKinds::both_kinds), unfolding(rules::specs::Sound::has_read_in_time))]
pub(crate) fn has_read_in_time(table: &[u64], n: u64) -> bool
    requires { HasRow table.now n }
    ensures { result ≡ has_read_in_time table.now n }
{
    !is_live(table, n) || (has_times_in(table, n, Kind::Top) && has_times_in(table, n, Kind::Sub))
}

pub(crate) fn has_end_in_time(table: &[u64], n: u64) -> bool
    requires { HasRow table.now n }
    ensures { result ≡ has_end_in_time table.now n }
{
    !has_ended(table, n) || ends_in_time(table, n)
}

fn ends_under_another(table: &[u64], n: u64) -> bool
    requires { HasRow table.now n }
    ensures { result ≡ ends_under_another table.now n }
{
    has_ended(table, n) && parent(table, n) != n
}

// The parents first: only actions of one kind have end times that can be compared.
fn shares_end_time(table: &[u64], n: u64, m: u64) -> bool
    requires has_row { HasRow table.now n }
    requires has_row_2 { HasRow table.now m }
    ensures { result ≡ shares_end_time table.now n m }
{
    parent(table, m) == parent(table, n)
        && end_together(table, m, n)
        && ends_under_another(table, m)
}

#[tactic(auto, unfolding(rules::specs::Sound::has_end_alone))]
pub(crate) fn has_end_alone(table: &[u64], n: u64) -> bool
    requires { HasRow table.now n }
    ensures { result ≡ has_end_alone table.now n }
{
    !ends_under_another(table, n) || (1..n).all(|m| !shares_end_time(table, n, m))
}
