// Where cards stand in the two stores.
ghost use Rattle.std.specs.Prelude.{◌≡◌};
ghost use Rattle.rules.specs.Card.{IsAccount, base_place, cards_place, shadow_place};
ghost use Rattle.rules.specs.Table.{IsAction};

use rules::store::{ACTION_STRIDE, CARD_STRIDE};

// The card of an account, in the base store or among an action's cards.
pub fn base_place(k: u64) -> usize
    requires { IsAccount k }
    ensures { result ≡ base_place k }
{
    (CARD_STRIDE * k) as usize
}

// The first of an action's cards, in the shadow store.
fn cards_place(n: u64) -> usize
    requires { IsAction n }
    ensures { result ≡ cards_place n }
{
    (ACTION_STRIDE * (n - 1)) as usize
}

// An action's card for an account, in the shadow store.
pub fn shadow_place(n: u64, k: u64) -> usize
    requires action { IsAction n }
    requires account { IsAccount k }
    ensures { result ≡ shadow_place n k }
{
    cards_place(n) + base_place(k)
}
