// What every field is read by: tests of all its bytes, and three bytes by value.
#![tactic(auto)]

ghost use Rattle.std.specs.Prelude.{◌≡◌, [], ◌∷◌, ◌+◌, ◌*◌, ◌<◌, ◌^◌};
ghost use Rattle.text.specs.Number.{is_digit_of, all_digits_of, first_other_of};
ghost use Rattle.put.specs.Put.{Wrote};
ghost use Rattle.field.specs.Field.{is_ascii_of, mnemonic_text};

use put::put_byte;

// Three bytes by value, where the Rust holds a `&str` of three characters.
#[derive(Clone, Copy, PartialEq, Eq, Debug)]
pub struct Mnemonic(pub u8, pub u8, pub u8);

impl Mnemonic {
    // Its three bytes as a piece, from a place on.
    pub fn put(self, buf: &mut [u8], at: usize) -> usize
        ensures { Wrote buf.old at (mnemonic_text self) buf.new result }
    {
        let at_second = put_byte(buf, at, self.0);
        let at_third = put_byte(buf, at_second, self.1);
        put_byte(buf, at_third, self.2)
    }
}

// A number with one more byte below it.
fn join(high: u64, low: u8) -> u64
    requires { high < 2 ^ 56 }
    ensures { result ≡ high * 256 + low }
{
    high * 256 + low as u64
}

// Eight bytes are ASCII: the compiler makes one load and one test of it.
fn low8(a: u8, b: u8, c: u8, d: u8, e: u8, f: u8, g: u8, h: u8) -> bool
    ensures { result ≡ is_ascii_of (a ∷ b ∷ c ∷ d ∷ e ∷ f ∷ g ∷ h ∷ []) }
{
    let low = join(join(join(h as u64, g), f), e);
    join(join(join(join(low, d), c), b), a) & 0x8080_8080_8080_8080 == 0
}

// Every byte is ASCII: byte by byte.
fn ascii_tail(text: &[u8]) -> bool
    ensures { result ≡ is_ascii_of text.now }
{
    for b in text {
        if 127 < *b {
            return false;
        }
    }
    true
}

// Eight bytes a turn, for speed: `for` would go byte by byte.
pub fn is_ascii(text: &[u8]) -> bool
    ensures { result ≡ is_ascii_of text.now }
{
    let mut i = 0;
    while 8 <= text.len() - i {
        if !low8(
            text[i],
            text[i + 1],
            text[i + 2],
            text[i + 3],
            text[i + 4],
            text[i + 5],
            text[i + 6],
            text[i + 7],
        ) {
            return false;
        }
        i += 8;
    }
    ascii_tail(&text[i..])
}

// With no way out of the loop but its end the compiler tests many bytes at once.
pub fn all_digits(text: &[u8]) -> bool
    ensures { result ≡ all_digits_of text.now }
{
    let mut all = true;
    for b in text {
        if !is_digit(*b) {
            all = false;
        }
    }
    all
}

// How many digits stand before the first byte that is none; of digits alone, all.
pub fn first_other(text: &[u8]) -> usize
    ensures { result ≡ first_other_of text.now }
{
    for i in 0..text.len() {
        if !is_digit(text[i]) {
            return i;
        }
    }
    text.len()
}

fn is_digit(b: u8) -> bool
    ensures { result ≡ is_digit_of b }
{
    b'0' <= b && b <= b'9'
}
