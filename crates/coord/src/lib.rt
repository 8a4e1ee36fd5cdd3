// Latitude and longitude, types apart over one coordinate.
#![tactic(auto)]

ghost use Rattle.std.specs.Prelude.{ℕ, List, Bool, ◌≡◌};
ghost use Rattle.std.specs.Float.{binary32, binary64};
ghost use Rattle.text.specs.Res.{Res, ok};
ghost use Rattle.print.specs.Print.{Prints};
ghost use Rattle.raw_coord.specs.Degrees.{degrees_of};
ghost use Rattle.raw_coord.specs.declared.RawCoord.{RawCoord};
ghost use Rattle.raw_coord.specs.declared.Compass.{Compass};
ghost use Rattle.raw_coord.specs.declared.Compass.TheVariants.{North, South, East, West};
ghost use Rattle.coord.specs.Coord.{read_latitude, read_longitude, latitude_in, longitude_in, latitude_by};
ghost use Rattle.coord.specs.Coord.{longitude_by, new_latitude, new_longitude, latitude_text, longitude_text};
ghost use Rattle.coord.specs.Coord.{latitude_book, longitude_book};
ghost use Rattle.coord.specs.Axis.{AxisLaws, latitude_of, longitude_of, latitude_laws, longitude_laws};

use print::printed::{Piece, print_piece};
use raw_coord::{Compass, RawCoord};
use text::refusal::Refusal;

// A latitude or a longitude: what they have apart, and what both do by it.
pub trait Axis: Piece + Copy {
    ghost of: { RawCoord → Self };

    ghost coordinate: { Self → RawCoord };

    ghost LIMIT: { ℕ };

    ghost WIDTH: { ℕ };

    ghost X: { Compass };

    ghost Y: { Compass };

    // What is made, read and by the book.
    ghost made: { ℕ → ℕ → Compass → Res Self };

    ghost by: { ℕ → ℕ → ℕ → Res Self };

    ghost in_ascii: { List ℕ → Res Self };

    ghost read: { List ℕ → Res Self };

    ghost book: { Self → Bool };

    // The most degrees, and how many characters they take.
    const LIMIT: u8;

    const WIDTH: usize;

    // The two directions.
    const X: Compass;

    const Y: Compass;

    fn of(coord: RawCoord) -> Self
        ensures { result ≡ of coord };

    fn coordinate(self) -> RawCoord
        ensures { result ≡ coordinate self };

    ghost laws: { AxisLaws of coordinate LIMIT WIDTH X Y made by in_ascii read book };

    // One of degrees to the limit and of one of the two directions.
    final fn new(degrees: u8, thousandths: u16, sign: Compass) -> Result<Self, Refusal>
        ensures { result ≡ made degrees thousandths sign }
    {
        let coord = RawCoord::new(Self::LIMIT, Self::X, Self::Y, degrees, thousandths, sign)?;
        Ok(Self::of(coord))
    }

    // Of its two numbers and its letter, as reading takes them.
    final fn lettered(degrees: u8, thousandths: u16, letter: u8) -> Result<Self, Refusal>
        ensures { result ≡ by degrees thousandths letter }
    {
        let coord = RawCoord::lettered(
            Self::LIMIT,
            Self::X,
            Self::Y,
            degrees,
            thousandths,
            letter,
        )?;
        Ok(Self::of(coord))
    }

    // Reads the width of the degrees and six bytes more, that are known to be ASCII.
    final fn parse_ascii(text: &[u8]) -> Result<Self, Refusal>
        ensures { result ≡ in_ascii text.now }
    {
        let coord = RawCoord::parse_ascii(text, Self::WIDTH, Self::LIMIT, Self::X, Self::Y)?;
        Ok(Self::of(coord))
    }

    // The same of bytes that may be anything.
    final fn parse(text: &[u8]) -> Result<Self, Refusal>
        ensures { result ≡ read text.now }
    {
        let coord = RawCoord::parse(text, Self::WIDTH, Self::LIMIT, Self::X, Self::Y)?;
        Ok(Self::of(coord))
    }

    // One that the globe has: none past the limit.
    final fn by_the_book(self) -> bool
        ensures { result ≡ book self }
    {
        self.coordinate().by_the_book(Self::LIMIT)
    }

    // Prints it.
    final fn print(self, buf: &mut [u8]) -> Result<usize, Refusal>
        ensures { Prints (ok (Self.text self)) buf.old buf.new result }
    {
        print_piece(self, buf)
    }

    // Degrees as a float of 32 bits, negative in the south and the west.
    final fn to_f32(self) -> f32
        ensures { result ≡ degrees_of binary32 (coordinate self) }
    {
        self.coordinate().to_f32()
    }

    // The same of 64 bits.
    final fn to_f64(self) -> f64
        ensures { result ≡ degrees_of binary64 (coordinate self) }
    {
        self.coordinate().to_f64()
    }
}

// To 90 degrees, N or S.
#[derive(Clone, Copy)]
pub struct RawLatitude(pub RawCoord);

impl Piece for RawLatitude {
    ghost text = { latitude_text };

    fn put(self, buf: &mut [u8], at: usize) -> usize {
        self.0.put(buf, at, Self::WIDTH)
    }
}

impl Axis for RawLatitude {
    ghost of = { latitude_of };

    ghost coordinate = { λ l. l.0 };

    ghost LIMIT = { 90 };

    ghost WIDTH = { 2 };

    ghost X = { North };

    ghost Y = { South };

    ghost made = { new_latitude };

    ghost by = { latitude_by };

    ghost in_ascii = { latitude_in };

    ghost read = { read_latitude };

    ghost book = { latitude_book };

    ghost laws = { latitude_laws };

    const LIMIT: u8 = 90;

    const WIDTH: usize = 2;

    const X: Compass = Compass::North;

    const Y: Compass = Compass::South;

    fn of(coord: RawCoord) -> RawLatitude {
        RawLatitude(coord)
    }

    fn coordinate(self) -> RawCoord {
        self.0
    }
}

// To 180 degrees, E or W.
#[derive(Clone, Copy)]
pub struct RawLongitude(pub RawCoord);

impl Piece for RawLongitude {
    ghost text = { longitude_text };

    fn put(self, buf: &mut [u8], at: usize) -> usize {
        self.0.put(buf, at, Self::WIDTH)
    }
}

impl Axis for RawLongitude {
    ghost of = { longitude_of };

    ghost coordinate = { λ l. l.0 };

    ghost LIMIT = { 180 };

    ghost WIDTH = { 3 };

    ghost X = { East };

    ghost Y = { West };

    ghost made = { new_longitude };

    ghost by = { longitude_by };

    ghost in_ascii = { longitude_in };

    ghost read = { read_longitude };

    ghost book = { longitude_book };

    ghost laws = { longitude_laws };

    const LIMIT: u8 = 180;

    const WIDTH: usize = 3;

    const X: Compass = Compass::East;

    const Y: Compass = Compass::West;

    fn of(coord: RawCoord) -> RawLongitude {
        RawLongitude(coord)
    }

    fn coordinate(self) -> RawCoord {
        self.0
    }
}
