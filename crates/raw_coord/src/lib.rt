// A coordinate of either kind, as src/util/coord.rs has it.
#![tactic(auto)]

pub mod degrees;

ghost use Rattle.std.specs.Prelude.{◌≡◌, ◌+◌};
ghost use Rattle.text.specs.Res.{◌=?◌, ◌∨?◌};
ghost use Rattle.field.specs.Field.{sized, field};
ghost use Rattle.put.specs.Put.{Wrote};
ghost use Rattle.raw_coord.specs.Coord.{compass_letter, sign_of, coord_of, lettered, read_coord, new_coord, coord_text};
ghost use Rattle.raw_coord.specs.Coord.{coord_book};

use field::is_ascii;
use print::number::put_nat;
use put::put_byte;
use text::number::{read_u8, read_u16};
use text::refusal::{Refusal, counted_from};

#[derive(Clone, Copy)]
pub enum Compass {
    North,
    South,
    East,
    West,
}

// A latitude or a longitude, of any values.
#[derive(Clone, Copy)]
pub struct RawCoord {
    pub minute_thousandths: u16,
    pub degrees: u8,
    pub sign: Compass,
}

impl Compass {
    // N, S, E or W: one way alone, so a `From<Compass>` would say no more.
    pub fn letter(self) -> u8
        ensures { result ≡ compass_letter self }
    {
        match self {
            Compass::North => b'N',
            Compass::South => b'S',
            Compass::East => b'E',
            Compass::West => b'W',
        }
    }
}

// x or y, by its letter.
fn sign_of(letter: u8, x: Compass, y: Compass) -> Result<Compass, Refusal>
    ensures { result ≡ sign_of x y letter }
{
    if letter == x.letter() {
        return Ok(x);
    }
    if letter == y.letter() {
        return Ok(y);
    }
    Err(Refusal::Syntax)
}

// The direction is x or y.
fn one_of(sign: Compass, x: Compass, y: Compass) -> bool
    ensures { result ≡ ((compass_letter sign =? compass_letter x) ∨? (compass_letter sign =? compass_letter y)) }
{
    let letter = sign.letter();
    letter == x.letter() || letter == y.letter()
}

// The limit and the letters x and y travel together: they are constants of `coord::Axis`, which alone hands them over, so
// a struct of them would be built at each call and read at once.
impl RawCoord {
    // A coordinate as reading takes it: 60000 thousandths pass.
    fn within(limit: u8, degrees: u8, thousandths: u16, sign: Compass) -> Result<RawCoord, Refusal>
        ensures { result ≡ coord_of limit degrees thousandths sign }
    {
        if degrees <= limit && thousandths <= 60000 {
            return Ok(RawCoord {
                minute_thousandths: thousandths,
                degrees,
                sign,
            });
        }
        Err(Refusal::OutOfRange)
    }

    // The same with the direction by its letter, which is looked at first.
    pub fn lettered(
        limit: u8,
        x: Compass,
        y: Compass,
        degrees: u8,
        thousandths: u16,
        letter: u8,
    ) -> Result<RawCoord, Refusal>
        ensures { result ≡ lettered limit x y degrees thousandths letter }
    {
        let sign = sign_of(letter, x, y)?;
        RawCoord::within(limit, degrees, thousandths, sign)
    }

    // A coordinate as construction takes it: below 60000 thousandths, and of the two directions x and y.
    pub fn new(
        limit: u8,
        x: Compass,
        y: Compass,
        degrees: u8,
        thousandths: u16,
        sign: Compass,
    ) -> Result<RawCoord, Refusal>
        ensures { result ≡ new_coord limit x y degrees thousandths sign }
    {
        if degrees <= limit && thousandths <= 59999 && one_of(sign, x, y) {
            return Ok(RawCoord {
                minute_thousandths: thousandths,
                degrees,
                sign,
            });
        }
        Err(Refusal::OutOfRange)
    }

    // d characters of degrees, five of thousandths, a letter, in a text that the caller knows to be ASCII.
    pub fn parse_ascii(
        text: &[u8],
        d: usize,
        limit: u8,
        x: Compass,
        y: Compass,
    ) -> Result<RawCoord, Refusal>
        ensures { result ≡ sized (d + 6) (read_coord d limit x y) text.now }
    {
        if text.len() < 6 || text.len() - 6 != d {
            return Err(Refusal::WrongLength);
        }
        let degrees = counted_from(0, read_u8(&text[0..d]))?;
        let e = d + 5;
        let thousandths = counted_from(d, read_u16(&text[d..e]))?;
        RawCoord::lettered(limit, x, y, degrees, thousandths, text[e])
    }

    // The same in a text that may be anything.
    pub fn parse(
        text: &[u8],
        d: usize,
        limit: u8,
        x: Compass,
        y: Compass,
    ) -> Result<RawCoord, Refusal>
        ensures { result ≡ field (d + 6) (read_coord d limit x y) text.now }
    {
        if text.len() < 6 || text.len() - 6 != d {
            return Err(Refusal::WrongLength);
        }
        if !is_ascii(text) {
            return Err(Refusal::NotAscii);
        }
        RawCoord::parse_ascii(text, d, limit, x, y)
    }

    // A coordinate up to a limit, which only latitude and longitude know.
    pub fn by_the_book(self, limit: u8) -> bool
        ensures { result ≡ coord_book limit self }
    {
        if self.degrees == limit {
            return self.minute_thousandths == 0;
        }
        self.degrees <= limit && self.minute_thousandths <= 59999
    }

    // Degrees in width d.
    pub fn put(self, buf: &mut [u8], at: usize, d: usize) -> usize
        ensures { Wrote buf.old at (coord_text d self) buf.new result }
    {
        let at_minutes = put_nat(buf, at, self.degrees as u64, d);
        let at_letter = put_nat(buf, at_minutes, self.minute_thousandths as u64, 5);
        put_byte(buf, at_letter, self.sign.letter())
    }
}
