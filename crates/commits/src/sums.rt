// The sums that a commit makes: with its parent's pending sums or with the base amounts, and those that are kept.
ghost use Rattle.std.specs.Prelude.{◌≡◌, ◌||◌};
ghost use Rattle.rules.specs.Card.{IsBase, IsCharge};
ghost use Rattle.rules.specs.Cause.{commit_sum, is_copy_outside, is_kept_outside, is_commit_outside};
ghost use Rattle.rules.specs.Sound.{IsGiven, IsLiveAction, Sound};
ghost use Rattle.rules.specs.Verdict.{commit_verdict};
ghost use Rattle.amounts.specs.Sum.{value_of};

use crate::held::held_word;
use crate::kept::kept_after;
use amounts::sum::{Sum, is_amount, of_word, plus};
use rows::fields::{has_written, parent, pending};
use rules::store::{ACCOUNTS, FIRST_CHARGE};
use validation::verdict::commit_verdict;

// What n's pending sum for the account makes with its parent's, or with the base amount.
fn commit_sum(table: &[u64], base: &[u8], n: u64, k: u64) -> Sum
    requires sound { Sound table.now × IsGiven table.now n }
    requires base { IsBase base.now }
    requires charge { IsCharge k }
    ensures { value_of result ≡ commit_sum table.now base.now n k }
{
    let p = parent(table, n);
    plus(of_word(held_word(table, base, p, k)), pending(table, n, k))
}

fn is_copy_outside(table: &[u64], base: &[u8], n: u64, k: u64) -> bool
    requires sound { Sound table.now × IsGiven table.now n }
    requires base { IsBase base.now }
    requires charge { IsCharge k }
    ensures { result ≡ is_copy_outside table.now base.now n k }
{
    has_written(table, n, k) && !is_amount(commit_sum(table, base, n, k))
}

fn is_kept_outside(table: &[u64], n: u64, k: u64) -> bool
    requires sound { Sound table.now × IsGiven table.now n }
    requires charge { IsCharge k }
    ensures { result ≡ is_kept_outside table.now n k }
{
    let p = parent(table, n);
    !is_amount(kept_after(table, n, p, k))
}

// What is copied, or what is kept, for the account.
fn is_sum_outside(table: &[u64], base: &[u8], n: u64, k: u64) -> bool
    requires sound { Sound table.now × IsGiven table.now n }
    requires base { IsBase base.now }
    requires charge { IsCharge k }
    ensures { result
        ≡ (is_copy_outside table.now base.now n k || is_kept_outside table.now n k) }
{
    is_copy_outside(table, base, n, k) || is_kept_outside(table, n, k)
}

// One of the sums of n's commit is no amount.
pub(crate) fn is_outside(table: &[u64], base: &[u8], n: u64) -> bool
    requires sound { Sound table.now × IsGiven table.now n }
    requires base { IsBase base.now }
    ensures { result ≡ is_commit_outside table.now base.now n None }
{
    (FIRST_CHARGE..ACCOUNTS).any(|k| is_sum_outside(table, base, n, k))
}

// The same by its verdict: a commit that something is found against makes no sum.
#[tactic(auto, unfolding(rules::specs::Cause::is_commit_outside))]
pub fn is_commit_outside(table: &[u64], base: &[u8], n: u64) -> bool
    requires sound { Sound table.now × IsLiveAction table.now n }
    requires base { IsBase base.now }
    ensures { result
        ≡ is_commit_outside table.now base.now n (commit_verdict table.now n) }
{
    match commit_verdict(table, n) {
        None => is_outside(table, base, n),
        Some(_) => false,
    }
}
