// B lines, as src/records/b_record.rs has them.
#![tactic(auto)]

pub mod height;

ghost use Rattle.std.specs.Prelude.{◌≡◌, ◌≤◌, ℕ, List, length};
ghost use Rattle.part.specs.Part.{find_part, part_bytes, shown, Shows};
ghost use Rattle.extension.specs.Value.{find_value};
ghost use Rattle.put.specs.Put.{Wrote};
ghost use Rattle.print.specs.Print.{Prints};
ghost use Rattle.b_record.specs.BRecord.{valid_letter, valid_of, read_heights_of, read_b};
ghost use Rattle.b_record.specs.BRecord.{tail_text, b_piece, b_text, b_book};

pub use crate::height::{GpsAlt, Height, PressureAlt};
use extension::Extension;
use field::is_ascii;
use part::{InLine, Part};
use position::RawPosition;
use print::printed::{LinePiece, Piece, print_beside};
use put::{put_byte, put_part};
use text::number::read_i16;
use text::refusal::{Refusal, counted_from};
use time::Time;

#[derive(Clone, Copy)]
pub enum FixValid {
    Valid,
    NavWarning,
}

#[derive(Clone, Copy)]
pub struct BRecord {
    pub rest: Part,
    pub pos: RawPosition,
    pub pressure_alt: PressureAlt,
    pub gps_alt: GpsAlt,
    pub timestamp: Time,
    pub fix_valid: FixValid,
}

#[derive(Clone, Copy)]
struct Heights {
    pressure: PressureAlt,
    gps: GpsAlt,
}

impl FixValid {
    // A or V. docs/PROMISES.md names these two functions, so they are no `From` and `TryFrom`.
    pub fn letter(self) -> u8
        ensures { result ≡ valid_letter self }
    {
        match self {
            FixValid::Valid => b'A',
            FixValid::NavWarning => b'V',
        }
    }

    // A or V by its letter.
    pub fn from_letter(letter: u8) -> Result<FixValid, Refusal>
        ensures { result ≡ valid_of letter }
    {
        match letter {
            b'A' => Ok(FixValid::Valid),
            b'V' => Ok(FixValid::NavWarning),
            _ => Err(Refusal::Syntax),
        }
    }
}

// The two heights, each from its own columns and of its own type.
fn read_heights(line: &[u8]) -> Result<Heights, Refusal>
    requires { 35 ≤ length line.now }
    ensures { result ≡ read_heights_of line.now }
{
    let by_pressure = counted_from(25, read_i16(&line[25..30]))?;
    let by_gps = counted_from(30, read_i16(&line[30..35]))?;
    Ok(Heights {
        pressure: PressureAlt(by_pressure),
        gps: GpsAlt(by_gps),
    })
}

impl BRecord {
    pub const BASE_LENGTH: usize = 35;

    // Reads a B line of at least 35 ASCII bytes.
    pub fn parse(line: &[u8]) -> Result<BRecord, Refusal>
        ensures { result ≡ read_b line.now }
    {
        if line.len() < BRecord::BASE_LENGTH {
            return Err(Refusal::Syntax);
        }
        if !is_ascii(line) {
            return Err(Refusal::NotAscii);
        }
        let timestamp = counted_from(1, Time::parse_ascii(&line[1..7]))?;
        let pos = counted_from(7, RawPosition::parse_ascii(&line[7..24]))?;
        let fix_valid = FixValid::from_letter(line[24])?;
        let heights = read_heights(line)?;
        Ok(BRecord {
            rest: Part::from_column(BRecord::BASE_LENGTH, line),
            pos,
            pressure_alt: heights.pressure,
            gps_alt: heights.gps,
            timestamp,
            fix_valid,
        })
    }

    // The bytes after the fixed columns, as a part of the caller's own line.
    pub fn rest(self, line: &[u8]) -> &[u8]
        ensures { Shows line.entry (shown (find_part self.rest line.now)) result }
    {
        self.rest.view(line)
    }

    // Where the value of an extension stands in the line.
    pub fn find_extension(self, extension: Extension, line: &[u8]) -> Result<Part, Refusal>
        ensures { result ≡ find_value 35 self.rest extension line.now }
    {
        extension.find(BRecord::BASE_LENGTH, self.rest, line)
    }

    // The value itself, as a part of the caller's own line.
    pub fn get_extension(self, extension: Extension, line: &[u8]) -> &[u8]
        ensures { Shows line.entry (shown (find_value 35 self.rest extension line.now)) result }
    {
        extension.get_extension(BRecord::BASE_LENGTH, self.rest, line)
    }

    // Its time and its position are by the book.
    pub fn by_the_book(self) -> bool
        ensures { result ≡ b_book self }
    {
        self.timestamp.by_the_book() && self.pos.by_the_book()
    }

    // From the fix's letter on.
    fn put_tail(self, buf: &mut [u8], at: usize, line: &[u8]) -> usize
        ensures { Wrote buf.old at (tail_text self (part_bytes self.rest line.now)) buf.new result }
    {
        let at_pressure = put_byte(buf, at, self.fix_valid.letter());
        let at_gps = self.pressure_alt.put(buf, at_pressure, 5);
        let at_rest = self.gps_alt.put(buf, at_gps, 5);
        put_part(buf, at_rest, line, self.rest)
    }

    // Prints the record beside its line.
    pub fn print(self, line: &[u8], buf: &mut [u8]) -> Result<usize, Refusal>
        ensures { Prints (b_text self line.now) buf.old buf.new result }
    {
        self.rest.find(line)?;
        print_beside(self, line, buf)
    }
}

// Bytes that are too short cut the text, and what lies outside the line is left out. `print` is the printer.
impl LinePiece for BRecord {
    ghost piece = { b_piece };

    fn put_piece(self, buf: &mut [u8], at: usize, line: &[u8]) -> usize {
        let at_time = put_byte(buf, at, b'B');
        let at_place = self.timestamp.put(buf, at_time);
        let at_fix = self.pos.put(buf, at_place);
        self.put_tail(buf, at_fix, line)
    }
}
