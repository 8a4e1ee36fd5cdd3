// A position, latitude and longitude, as src/util/coord.rs has it.
#![tactic(auto)]

ghost use Rattle.std.specs.Prelude.{◌≡◌};
ghost use Rattle.text.specs.Res.{ok};
ghost use Rattle.print.specs.Print.{Prints};
ghost use Rattle.position.specs.Position.{read_position, position_in, position_text, position_book};

use coord::{Axis, RawLatitude, RawLongitude};
use field::is_ascii;
use print::printed::{Piece, print_piece};
use text::refusal::{Refusal, counted_from};

#[derive(Clone, Copy)]
pub struct RawPosition {
    pub lat: RawLatitude,
    pub lon: RawLongitude,
}

impl RawPosition {
    // A position in a text that the caller knows to be ASCII: the test is not made again.
    pub fn parse_ascii(text: &[u8]) -> Result<RawPosition, Refusal>
        ensures { result ≡ position_in text.now }
    {
        if text.len() != 17 {
            return Err(Refusal::WrongLength);
        }
        let lat = counted_from(0, RawLatitude::parse_ascii(&text[0..8]))?;
        let lon = counted_from(8, RawLongitude::parse_ascii(&text[8..17]))?;
        Ok(RawPosition { lat, lon })
    }

    // Reads a position of seventeen bytes, the latitude first. Its tests are those of `Time::parse`, and no plainer by a
    // closure.
    pub fn parse(text: &[u8]) -> Result<RawPosition, Refusal>
        ensures { result ≡ read_position text.now }
    {
        if text.len() != 17 {
            return Err(Refusal::WrongLength);
        }
        if !is_ascii(text) {
            return Err(Refusal::NotAscii);
        }
        RawPosition::parse_ascii(text)
    }

    // Both of its coordinates are by the book.
    pub fn by_the_book(self) -> bool
        ensures { result ≡ position_book self }
    {
        self.lat.by_the_book() && self.lon.by_the_book()
    }

    // Prints it.
    pub fn print(self, buf: &mut [u8]) -> Result<usize, Refusal>
        ensures { Prints (ok (position_text self)) buf.old buf.new result }
    {
        print_piece(self, buf)
    }
}

impl Piece for RawPosition {
    ghost text = { position_text };

    fn put(self, buf: &mut [u8], at: usize) -> usize {
        let next = self.lat.put(buf, at);
        self.lon.put(buf, next)
    }
}
