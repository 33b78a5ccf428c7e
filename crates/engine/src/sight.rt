// What a look is at: the nearest version, or why it isn't given.
ghost use Rattle.std.specs.Prelude.{◌≡◌, cond, IfOk};
ghost use Rattle.rules.specs.Card.{IsBase};
ghost use Rattle.rules.specs.Cause.{sum_cause, is_read_outside};
ghost use Rattle.rules.specs.Look.{look_cause};
ghost use Rattle.rules.specs.Nearest.{version};
ghost use Rattle.rules.specs.Refusal.{refusal_of};
ghost use Rattle.ancestry.specs.Ancestry.{Readable};

use ancestry::charge::seen_by;
use ancestry::walk::nearest;
use causes::cause::{event_cause, store_cause};
use rules::Version;
use rules::event::{Code, Event};
use rules::refusal::Refusal;
use rules::store::FIRST_CHARGE;
use rules::table::STORE;

// Of a charge account it is the base card, whose sum may be no amount.
#[tactic(auto, unfolding(rules::specs::Cause::is_read_outside))]
fn late_sight(table: &[u64], base: &[u8], n: u64, k: u64) -> Result<Version, Refusal>
    requires readable { Readable table.now n k }
    requires base { IsBase base.now }
    ensures cause { refusal_of result ≡ cond (is_read_outside table.now base.now n k) sum_cause 0 }
    ensures version { IfOk result (λ found. found ≡ version table.now n k) }
{
    if k < FIRST_CHARGE {
        return Ok(nearest(table, n, k));
    }
    let seen = seen_by(table, base, n, k);
    if seen.sum.is_none() {
        return Err(Refusal::Sum);
    }
    Ok(Version {
        holder: STORE,
        moves: seen.moves,
    })
}

// The causes are a read's, whose card is not looked at.
pub(crate) fn sight_of(
    table: &[u64],
    base: &[u8],
    shadow: &[u8],
    n: u64,
    k: u64,
) -> Result<Version, Refusal>
    ensures cause { refusal_of result ≡ look_cause table.now base.now shadow.now n k }
    ensures version { IfOk result (λ found. found ≡ version table.now n k) }
{
    store_cause(table, base, shadow)?;
    let read = Event {
        code: u64::from(Code::Read),
        number: n,
        account: k,
        card: &[],
    };
    event_cause(table, read)?;
    late_sight(table, base, n, k)
}
