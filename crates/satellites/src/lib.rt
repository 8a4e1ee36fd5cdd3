// The satellites that an F line lists, as src/records/f_record.rs has them: numbers 00 to 99, here kept as a set of
// bits in two words.
#![tactic(auto)]

ghost use Rattle.std.specs.Prelude.{◌≡◌};
ghost use Rattle.satellites.specs.Satellites.{has_number, with_number, Counts, read_satellites};

use field::first_other;
use text::refusal::Refusal;

// Bit n of `low` is the number n, bit n of `high` the number 64 + n.
#[derive(Clone, Copy)]
pub struct Satellites {
    pub low: u64,
    pub high: u64,
}

impl Satellites {
    // The number is in the set; from 128 on none is.
    pub fn has(self, n: u8) -> bool
        ensures { result ≡ has_number n self }
    {
        if n < 64 {
            return (self.low >> n) & 1 == 1;
        }
        if n < 128 {
            return (self.high >> (n - 64)) & 1 == 1;
        }
        false
    }

    // The set with a number more; from 128 on it stays as it is.
    fn with(self, n: u8) -> Satellites
        ensures { result ≡ with_number n self }
    {
        if n < 64 {
            return Satellites {
                low: self.low | (1 << n),
                high: self.high,
            };
        }
        if n < 128 {
            return Satellites {
                low: self.low,
                high: self.high | (1 << (n - 64)),
            };
        }
        self
    }

    // How many numbers are in the set: of one that was read, how many different ones the list has. Bits from 100 on,
    // which only words built by hand have, count too.
    pub fn count(self) -> u32
        ensures { Counts self result }
    {
        u64::count_ones(self.low) + u64::count_ones(self.high)
    }

    // Reads a list of two digits a satellite.
    pub fn parse(text: &[u8]) -> Result<Satellites, Refusal>
        ensures { result ≡ read_satellites text.now }
    {
        if text.len() % 2 != 0 {
            return Err(Refusal::Syntax);
        }
        let other = first_other(text);
        if other < text.len() {
            return Err(Refusal::UnreadableNumber(other));
        }
        let mut heard = Satellites { low: 0, high: 0 };
        for k in 0..text.len() / 2 {
            let tens = text[2 * k] - b'0';
            let ones = text[2 * k + 1] - b'0';
            heard = heard.with(tens * 10 + ones);
        }
        Ok(heard)
    }
}
