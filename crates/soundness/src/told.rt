// The clause that a parent's newest end times tell every live read below it what the parent's records tell, of one parent.
ghost use Rattle.std.specs.Prelude.{◌≡◌};
ghost use Rattle.rules.specs.Range.{all};
ghost use Rattle.rules.specs.Card.{IsAccount};
ghost use Rattle.rules.specs.Table.{actions};
ghost use Rattle.rules.specs.Sound.{are_newest_true, IsGiven, StoreOrLive};
ghost use Rattle.rows.specs.Row.{HasRow};
ghost use Rattle.ancestry.specs.Ancestry.{LiveClimb};
ghost use Rattle.soundness.specs.Held.{AreHeld, IsHeld};
ghost use Rattle.soundness.specs.Reads.{is_read_true, are_reads_true};

use crate::held::ends_held;
use ancestry::under::is_under;
use rows::fields::{has_read, highest, is_live};
use rows::times::ends::{ENDS_LENGTH, are_newest, is_newest, is_told_alike};
use rules::store::ACCOUNTS;

// The read before the walk up: most actions haven't read the account.
#[tactic(auto, using(crate::proofs::HeldEnds::stale_by_ends), unfolding(crate::specs::Reads::is_read_true, rules::specs::Sound::is_told_true))]
fn is_read_true(table: &[u64], p: u64, k: u64, end: u64, m: u64) -> bool
    requires live_climb { LiveClimb table.now }
    requires has_row { HasRow table.now p }
    requires account { IsAccount k }
    requires given { IsGiven table.now m }
    requires held { IsHeld table.now p k end }
    ensures { result ≡ is_read_true table.now p k m }
{
    !is_live(table, m)
        || !has_read(table, m, k)
        || !is_under(table, p, m)
        || is_told_alike(table, p, m, k, end)
}

fn all_reads_true(table: &[u64], p: u64, k: u64, end: u64) -> bool
    requires live_climb { LiveClimb table.now }
    requires has_row { HasRow table.now p }
    requires account { IsAccount k }
    requires held { IsHeld table.now p k end }
    ensures { result ≡ all (is_read_true table.now p k) (actions table.now) }
{
    (1..highest(table) + 1).all(|m| is_read_true(table, p, k, end, m))
}

// Where the two end times are the same they tell every read the same.
#[tactic(auto, using(crate::proofs::AccountReads::same_end_true), unfolding(crate::specs::Reads::are_reads_true))]
fn are_reads_true(table: &[u64], p: u64, k: u64, end: u64) -> bool
    requires live_climb { LiveClimb table.now }
    requires has_row { HasRow table.now p }
    requires account { IsAccount k }
    requires held { IsHeld table.now p k end }
    ensures { result ≡ are_reads_true table.now p k }
{
    is_newest(table, p, k, end) || all_reads_true(table, p, k, end)
}

fn all_accounts_true(table: &[u64], p: u64, ends: &[u64; ENDS_LENGTH]) -> bool
    requires live_climb { LiveClimb table.now }
    requires store_or_live { StoreOrLive table.now p }
    requires are_held { AreHeld table.now p ends.now }
    ensures { result ≡ are_newest_true table.now p }
{
    (0..ACCOUNTS).all(|k| are_reads_true(table, p, k, ends[k as usize]))
}

// The two differ where the newest record has been dropped, and then mostly for few accounts.
#[tactic(auto, using(crate::proofs::AccountReads::same_ends_true))]
pub(crate) fn are_newest_true(table: &[u64], p: u64) -> bool
    requires live_climb { LiveClimb table.now }
    requires store_or_live { StoreOrLive table.now p }
    ensures { result ≡ are_newest_true table.now p }
{
    let ends = ends_held(table, p);
    are_newest(table, p, &ends) || all_accounts_true(table, p, &ends)
}
