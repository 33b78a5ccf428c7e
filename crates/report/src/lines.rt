// The lines of the tree: an action's, and directly below it those of its children, each with its own in turn.
ghost use Rattle.std.specs.Prelude.{◌≡◌};
ghost use Rattle.std.proofs.lemmas.List.Edits.{sets};
ghost use Rattle.rules.specs.Table.{is_child_of};
ghost use Rattle.rules.specs.Tree.{line_length, line_words};
ghost use Rattle.rows.specs.Row.{HasRow};
ghost use Rattle.report.specs.Asked.{IsShown, HasLine, FiguresFit, HasRoomFor};
ghost use Rattle.report.specs.Lined.{HasLevels, HasLineRoom, line_at_depth, action_lines, lines_from, IsLined};

use crate::figures::put_figures;
use rows::fields::{highest, parent, state};
use rules::report::{FIGURES_AT, LINE_LENGTH, NUMBER_AT, STATE_AT};

fn is_child(table: &[u64], p: u64, m: u64) -> bool
    requires { HasRow table.now m }
    ensures { result ≡ is_child_of table.now p m }
{
    parent(table, m) == p
}

fn put_line(table: &[u64], report: &mut [u64], at: usize, n: u64, depth: u64)
    requires figures_fit { FiguresFit table.now }
    requires has_line { HasLine table.now n }
    requires has_room_for { HasRoomFor line_length report.old at }
    ensures { report.new
        ≡ sets report.old at (line_words table.now (line_at_depth depth n)) }
{
    report[at] = depth;
    report[at + NUMBER_AT] = n;
    report[at + STATE_AT] = state(table, n);
    put_figures(table, report, at + FIGURES_AT, n);
}

// An action's line, and those under it from so many levels, behind the lines that are put so far; back comes how many there
// are then.
#[cycle(put_action_put_list)]
fn put_action(
    table: &[u64],
    report: &mut [u64],
    lines: usize,
    n: u64,
    depth: u64,
    levels: u64,
) -> usize
    requires figures_fit { FiguresFit table.now }
    requires has_line { HasLine table.now n }
    requires has_levels { HasLevels depth levels }
    requires has_line_room { HasLineRoom report.old lines (action_lines levels table.now depth n) }
    ensures { IsLined table.now report.old lines
        (action_lines levels table.now depth n) report.new result }
{
    put_line(table, report, LINE_LENGTH * lines, n, depth);
    let next = lines + 1;
    if levels == 0 {
        return next;
    }
    put_list(table, report, next, n, depth + 1, levels - 1)
}

// The lines of p's children, each with those under it.
#[cycle(put_action_put_list)]
pub(crate) fn put_list(
    table: &[u64],
    report: &mut [u64],
    lines: usize,
    p: u64,
    depth: u64,
    levels: u64,
) -> usize
    requires figures_fit { FiguresFit table.now }
    requires shown { IsShown table.now p }
    requires has_levels { HasLevels depth levels }
    requires has_line_room { HasLineRoom report.old lines (lines_from levels table.now depth p 1) }
    ensures { IsLined table.now report.old lines
        (lines_from levels table.now depth p 1) report.new result }
{
    let last = highest(table);
    let mut next = lines;
    for i in 1..last + 1 {
        if is_child(table, p, i) {
            next = put_action(table, report, next, i, depth, levels);
        }
    }
    next
}
