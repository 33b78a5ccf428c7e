// A store cleared, and cards put into one and taken from one.
ghost use Rattle.std.specs.Prelude.{◌≡◌, length, replicate};
ghost use Rattle.rules.specs.Card.{IsCard, card_at, with_card};
ghost use Rattle.stores.specs.Fit.{CardFits};

use rules::store::CARD_LENGTH;

// Zeros in every place, whatever the length.
pub fn clear(store: &mut [u8])
    ensures { store.new ≡ replicate (length store.old) 0 }
{
    store.fill(0);
}

pub fn put_card(store: &mut [u8], at: usize, card: &[u8])
    requires card_fits { CardFits store.old at }
    requires card { IsCard card.now }
    ensures { store.new ≡ with_card store.old at card.now }
{
    let end = at + CARD_LENGTH;
    store[at..end].copy_from_slice(card);
}

// A card of one store put into another.
pub fn copy_card(store: &mut [u8], to: usize, source: &[u8], from: usize)
    requires card_fits { CardFits store.old to }
    requires card_fits_2 { CardFits source.now from }
    ensures { store.new ≡ with_card store.old to (card_at source.now from) }
{
    let end = to + CARD_LENGTH;
    let source_end = from + CARD_LENGTH;
    store[to..end].copy_from_slice(&source[from..source_end]);
}

// A card of a store put at another place of it.
pub fn move_card(store: &mut [u8], to: usize, from: usize)
    requires card_fits { CardFits store.old to }
    requires card_fits_2 { CardFits store.old from }
    ensures { store.new ≡ with_card store.old to (card_at store.old from) }
{
    let end = from + CARD_LENGTH;
    store.copy_within(from..end, to);
}
