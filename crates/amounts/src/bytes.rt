// Words read from bytes and put into them, low byte first.
ghost use Rattle.std.specs.Prelude.{◌≡◌};
ghost use Rattle.amounts.specs.Word.{WordFits, word_at, with_bytes};

use rules::amount::AMOUNT_LENGTH;

pub fn word_at(bytes: &[u8], at: usize) -> u64
    requires { WordFits bytes.now at }
    ensures { result ≡ word_at bytes.now at }
{
    let end = at + AMOUNT_LENGTH;
    let mut word = [0; AMOUNT_LENGTH];
    word.copy_from_slice(&bytes[at..end]);
    u64::from_le_bytes(word)
}

pub fn put_word(store: &mut [u8], at: usize, word: u64)
    requires { WordFits store.old at }
    ensures { store.new ≡ with_bytes store.old at word }
{
    let end = at + AMOUNT_LENGTH;
    store[at..end].copy_from_slice(&word.to_le_bytes());
}
