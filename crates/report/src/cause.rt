// Why a table has no report.
ghost use Rattle.std.specs.Prelude.{◌≡◌, not, ◌&&◌};
ghost use Rattle.rules.specs.Range.{any};
ghost use Rattle.rules.specs.Card.{IsCharge, charge_accounts};
ghost use Rattle.rules.specs.Amount.{is_amount};
ghost use Rattle.rules.specs.Table.{total_of};
ghost use Rattle.rules.specs.Sound.{Sound};
ghost use Rattle.rules.specs.Refusal.{refusal_of};
ghost use Rattle.rules.specs.Tree.{is_shown, is_figure_outside, tree_cause};
ghost use Rattle.rows.specs.Row.{HasRow, Scannable};

use crate::total::total;
use amounts::sum::is_amount;
use ancestry::way::reaches_store;
use causes::cause::store_cause;
use rows::fields::highest;
use rules::refusal::Refusal;
use rules::store::{ACCOUNTS, BASE_LENGTH, FIRST_CHARGE};

// Action n is shown, and its total for the account is no amount.
#[tactic(auto, unfolding(rules::specs::Tree::is_shown))]
fn is_outside(table: &[u64], n: u64, k: u64) -> bool
    requires has_row { HasRow table.now n }
    requires charge { IsCharge k }
    ensures { result
        ≡ is_shown table.now n && not (is_amount (total_of table.now n k)) }
{
    !is_amount(total(table, n, k)) && reaches_store(table, n)
}

// The total of an action that is shown is no amount.
fn is_figure_outside(table: &[u64], k: u64) -> bool
    requires scannable { Scannable table.now }
    requires charge { IsCharge k }
    ensures { result ≡ is_figure_outside table.now k }
{
    (1..highest(table) + 1).any(|n| is_outside(table, n, k))
}

// The figures of every account are amounts.
fn all_fit(table: &[u64]) -> bool
    requires { Sound table.now }
    ensures { result ≡ not (any (is_figure_outside table.now) charge_accounts) }
{
    !(FIRST_CHARGE..ACCOUNTS).any(|k| is_figure_outside(table, k))
}

pub(crate) fn tree_cause(
    table: &[u64],
    base: &[u8],
    shadow: &[u8],
    opening: &[u8],
) -> Result<(), Refusal>
    ensures { refusal_of result
        ≡ tree_cause table.now base.now shadow.now opening.now }
{
    if opening.len() != BASE_LENGTH {
        return Err(Refusal::StoreLength);
    }
    store_cause(table, base, shadow)?;
    if !all_fit(table) {
        return Err(Refusal::Sum);
    }
    Ok(())
}
