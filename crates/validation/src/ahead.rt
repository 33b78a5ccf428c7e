// The search for the first reader ahead: actions by rising number, accounts rising, both left at the first.
ghost use Rattle.std.specs.Prelude.{◌≡◌};
ghost use Rattle.rules.specs.Card.{IsAccount, accounts};
ghost use Rattle.rules.specs.Sound.{IsGiven, IsLiveAction, Sound};
ghost use Rattle.rules.specs.Ahead.{is_rival, is_read_ahead, ahead_over, ahead_by, first_ahead};
ghost use Rattle.rows.specs.Row.{HasRow};

use ancestry::under::is_under;
use ancestry::walk::is_at_or_below;
use rows::fields::{has_read, has_written, highest, is_live, parent};
use rules::Found;
use rules::store::ACCOUNTS;

// Whether m is live comes first: the parents of finished actions may run in a ring.
#[tactic(auto, unfolding(rules::specs::Ahead::is_rival))]
fn is_rival(table: &[u64], n: u64, m: u64) -> bool
    requires sound { Sound table.now }
    requires given { IsGiven table.now n }
    requires given_2 { IsGiven table.now m }
    ensures { result ≡ is_rival table.now n m }
{
    is_live(table, m) && is_under(table, parent(table, n), m) && !is_at_or_below(table, n, m)
}

// Also asked of those who wait, by one that enters.
pub fn is_read_ahead(table: &[u64], n: u64, m: u64, k: u64) -> bool
    requires has_row { HasRow table.now n }
    requires has_row_2 { HasRow table.now m }
    requires account { IsAccount k }
    ensures { result ≡ is_read_ahead table.now n m k }
{
    has_written(table, n, k) && has_read(table, m, k)
}

// m and the first account that it has read and n has written.
fn ahead_over(table: &[u64], n: u64, m: u64) -> Option<Found>
    requires has_row { HasRow table.now n }
    requires has_row_2 { HasRow table.now m }
    ensures { result ≡ ahead_over table.now n m accounts }
{
    let k = (0..ACCOUNTS).find(|k| is_read_ahead(table, n, m, *k))?;
    Some(Found {
        against: m,
        account: k,
    })
}

#[tactic(auto, unfolding(rules::specs::Ahead::ahead_by))]
fn ahead_by(table: &[u64], n: u64, m: u64) -> Option<Found>
    requires sound { Sound table.now }
    requires given { IsGiven table.now n }
    requires given_2 { IsGiven table.now m }
    ensures { result ≡ ahead_by table.now n m }
{
    if !is_rival(table, n, m) {
        return None;
    }
    ahead_over(table, n, m)
}

pub(crate) fn first_ahead(table: &[u64], n: u64) -> Option<Found>
    requires sound { Sound table.now }
    requires live_action { IsLiveAction table.now n }
    ensures { result ≡ first_ahead table.now n }
{
    (1..highest(table) + 1).find_map(|m| ahead_by(table, n, m))
}
