// A read by an action.
ghost use Rattle.std.specs.Prelude.{◌≡◌};
ghost use Rattle.rules.specs.Step.{read_table};
ghost use Rattle.rules.specs.Card.{IsBase};
ghost use Rattle.rules.specs.Cause.{is_read_outside};
ghost use Rattle.ancestry.specs.Ancestry.{Readable};
ghost use Rattle.events.specs.Sums.{read_says, read_leaves};

use ancestry::charge::seen_by;
use ancestry::walk::nearest;
use rows::fields::{has_card, has_read};
use rows::times::set_read_now;
use rules::Answer;
use rules::refusal::Refusal;
use rules::store::FIRST_CHARGE;
use rules::table::STORE;

// The account enters the read set. Times that are there stay, and a read of the action's own card isn't entered.
#[tactic(auto, unfolding(rules::specs::Step::read_table))]
fn enter(table: &mut [u64], n: u64, k: u64)
    requires { Readable table.old n k }
    ensures { table.new ≡ read_table table.old n k }
{
    let read = has_read(table, n, k);
    let own = has_card(table, n, k);
    if !(read || own) {
        set_read_now(table, n, k);
    }
}

// The sum that the action would see is no amount; an account that is no charge account has none.
#[tactic(auto, unfolding(rules::specs::Cause::is_read_outside))]
pub fn is_read_outside(table: &[u64], base: &[u8], n: u64, k: u64) -> bool
    requires readable { Readable table.now n k }
    requires base { IsBase base.now }
    ensures { result ≡ is_read_outside table.now base.now n k }
{
    FIRST_CHARGE <= k && seen_by(table, base, n, k).sum.is_none()
}

// Refused where the action sees a sum that is no amount.
#[tactic(auto, unfolding(rules::specs::Cause::is_read_outside, rules::specs::Step::read_answer))]
pub fn read(table: &mut [u64], base: &[u8], n: u64, k: u64) -> Answer
    requires readable { Readable table.old n k }
    requires base { IsBase base.now }
    ensures says { result ≡ read_says table.old base.now n k }
    ensures leaves { table.new ≡ read_leaves table.old base.now n k }
{
    if k < FIRST_CHARGE {
        let found = nearest(table, n, k);
        enter(table, n, k);
        return Answer::Read(found.holder, found.moves);
    }
    let seen = seen_by(table, base, n, k);
    let Some(sum) = seen.sum else {
        return Answer::Refused(Refusal::Sum);
    };
    enter(table, n, k);
    Answer::ReadSum(STORE, seen.moves, sum)
}
