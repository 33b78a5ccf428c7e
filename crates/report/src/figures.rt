// The figures of an action's line.
ghost use Rattle.std.specs.Prelude.{◌≡◌, map};
ghost use Rattle.std.proofs.lemmas.List.Edits.{sets};
ghost use Rattle.rules.specs.Card.{IsCharge};
ghost use Rattle.rules.specs.Amount.{amount_word};
ghost use Rattle.rules.specs.Tree.{account_figures, figures_of};
ghost use Rattle.report.specs.Asked.{HasLine, FiguresFit, HasRoomFor, account_words, figure_words};

use crate::total::total;
use rows::fields::own_adds;
use rules::report::{FIGURES, TOTAL_AT};
use rules::store::{ACCOUNTS, FIRST_CHARGE};

// Those for one account: own adds, then total.
fn put_account(table: &[u64], report: &mut [u64], at: usize, n: u64, k: u64)
    requires figures_fit { FiguresFit table.now }
    requires has_line { HasLine table.now n × IsCharge k }
    requires has_room_for { HasRoomFor account_words report.old at }
    ensures { report.new
        ≡ sets report.old at (map amount_word (account_figures table.now n k)) }
{
    let own = own_adds(table, n, k);
    let all = total(table, n, k).low;
    report[at] = own;
    report[at + TOTAL_AT] = all;
}

pub(crate) fn put_figures(table: &[u64], report: &mut [u64], from: usize, n: u64)
    requires figures_fit { FiguresFit table.now }
    requires has_line { HasLine table.now n }
    requires has_room_for { HasRoomFor figure_words report.old from }
    ensures { report.new
        ≡ sets report.old from (map amount_word (figures_of table.now n)) }
{
    for k in FIRST_CHARGE..ACCOUNTS {
        let before = (k - FIRST_CHARGE) as usize;
        put_account(table, report, from + FIGURES * before, n, k);
    }
}
