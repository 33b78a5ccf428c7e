// Text put into a buffer, piece by piece, each right behind the one before.
#![tactic(auto)]

ghost use Rattle.std.specs.Prelude.{◌≡◌, [], ◌∷◌};
ghost use Rattle.rules.specs.Amount.{amount_of};
ghost use Rattle.text.specs.Text.{space, decimal, signed, hexadecimal, refused_line};
ghost use Rattle.text.specs.Put.{Begins, bytes_put, Fits, Writes};

// The digits of the largest number, in decimal and in hexadecimal.
const DIGITS: usize = 20;

const HEX_DIGITS: usize = 16;

// A lent buffer, and the place in it where the next piece goes.
#[derive(Drop)]
pub struct Text<'a> {
    out: &'a mut [u8],
    at: usize,
}

impl<'a> Text<'a> {
    pub fn new(out: &'a mut [u8]) -> Text<'a>
        ensures { Begins out.entry result }
    {
        Text { out, at: 0 }
    }

    pub fn length(&self) -> usize
        ensures { result ≡ bytes_put self.now }
    {
        self.at // where the next piece goes
    }

    pub fn put_text(&mut self, text: &[u8])
        requires { Fits self.old text.now }
        ensures { Writes self.old self.new text.now }
    {
        let end = self.at + text.len();
        self.out[self.at..end].copy_from_slice(text);
        self.at = end;
    }

    pub fn put_byte(&mut self, b: u8)
        requires { Fits self.old (b ∷ []) }
        ensures { Writes self.old self.new (b ∷ []) }
    {
        self.out[self.at] = b;
        self.at += 1;
    }

    pub fn put_number(&mut self, n: u64)
        requires { Fits self.old (decimal n) }
        ensures { Writes self.old self.new (decimal n) }
    {
        let mut digits = [0; DIGITS];
        let k = io::decimal(n, &mut digits);
        self.put_text(&digits[..k]);
    }

    // The number that a word is in two's complement.
    pub fn put_signed(&mut self, word: u64)
        requires { Fits self.old (signed (amount_of word)) }
        ensures { Writes self.old self.new (signed (amount_of word)) }
    {
        let number = word.cast_signed();
        let is_negative = number < 0;
        if is_negative {
            self.put_byte(b'-');
        }
        self.put_number(number.unsigned_abs());
    }

    // All digits of a word, zeros in front too. One function for both bases would take the call and its buffer's length.
    pub fn put_hexadecimal(&mut self, word: u64)
        requires { Fits self.old (hexadecimal word) }
        ensures { Writes self.old self.new (hexadecimal word) }
    {
        let mut digits = [0; HEX_DIGITS];
        let k = io::hex(word, HEX_DIGITS, &mut digits);
        self.put_text(&digits[..k]);
    }

    // A space and a number.
    pub fn put_spaced(&mut self, n: u64)
        requires { Fits self.old (space ∷ decimal n) }
        ensures { Writes self.old self.new (space ∷ decimal n) }
    {
        self.put_byte(b' ');
        self.put_number(n);
    }

    pub fn put_refused(&mut self, fault: u64)
        requires { Fits self.old (refused_line fault) }
        ensures { Writes self.old self.new (refused_line fault) }
    {
        self.put_text(b"refused");
        self.put_spaced(fault);
        self.put_byte(b'\n');
    }
}
