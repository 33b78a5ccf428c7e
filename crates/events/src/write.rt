// A write by an action.
ghost use Rattle.std.specs.Prelude.{◌≡◌};
ghost use Rattle.rules.specs.Card.{IsAccount, IsCard, shadow_place, with_card};
ghost use Rattle.rules.specs.Table.{IsAction};
ghost use Rattle.rules.specs.Step.{write_table};
ghost use Rattle.rows.specs.Row.{HasRow};
ghost use Rattle.stores.specs.Fit.{IsShadow};

use rows::fields::set_write_entry;
use rules::table::ENTERED;
use stores::cards::put_card;
use stores::place::shadow_place;

#[tactic(auto, unfolding(rules::specs::Step::write_table))]
pub fn write(table: &mut [u64], shadow: &mut [u8], n: u64, k: u64, card: &[u8])
    requires has_row { HasRow table.old n }
    requires action { IsAction n × IsAccount k }
    requires shadow_2 { IsShadow shadow.old × IsCard card.now }
    ensures table { table.new ≡ write_table table.old n k }
    ensures shadow { shadow.new ≡ with_card shadow.old (shadow_place n k) card.now }
{
    put_card(shadow, shadow_place(n, k), card);
    set_write_entry(table, n, k, ENTERED);
}
