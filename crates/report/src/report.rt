// The report of a table's tree, on any table and stores.
ghost use Rattle.std.specs.Prelude.{◌≡◌};
ghost use Rattle.std.specs.Result.{result_unwrap_or};
ghost use Rattle.rules.specs.Refusal.{refusal_of};
ghost use Rattle.rules.specs.Tree.{report_of, report};

use crate::balance::put_block;
use crate::cause::tree_cause;
use crate::lines::put_list;
use rules::refusal::Refusal;
use rules::report::{MOST_LEVELS, REPORT_LENGTH, TOP};
use rules::table::STORE;

// Back comes how many lines there are: one for each action that is shown.
pub fn report(
    table: &[u64],
    base: &[u8],
    shadow: &[u8],
    opening: &[u8],
    out: &mut [u64; REPORT_LENGTH],
) -> Result<usize, Refusal>
    ensures { report_of (refusal_of result) (result_unwrap_or result 0) out.new
        ≡ report table.now base.now shadow.now opening.now
        out.old }
{
    tree_cause(table, base, shadow, opening)?;
    let lines = put_list(table, out, 0, STORE, TOP, MOST_LEVELS - 1);
    put_block(table, base, opening, out);
    Ok(lines)
}
