// D lines, as src/records/d_record.rs has them.
#![tactic(auto)]

ghost use Rattle.std.specs.Prelude.{◌≡◌};
ghost use Rattle.part.specs.Part.{find_part, shown, Shows};
ghost use Rattle.print.specs.Print.{Prints};
ghost use Rattle.d_record.specs.DRecord.{qualifier_of, qualifier_letter, read_d, d_piece, d_text};

use field::is_ascii;
use part::{InLine, Part};
use print::printed::{LinePiece, print_beside};
use put::{put_byte, put_part};
use text::refusal::Refusal;

#[derive(Clone, Copy)]
pub enum GpsQualifier {
    Gps,
    DGps,
}

// Differential GPS: whether it is used, and its station.
#[derive(Clone, Copy)]
pub struct DRecord {
    pub station_id: Part,
    pub qualifier: GpsQualifier,
}

// Public names as those of `FixValid`, which may not change, and so no `TryFrom<u8>`.
impl GpsQualifier {
    // The qualifier of a byte.
    pub fn from_letter(letter: u8) -> Result<GpsQualifier, Refusal>
        ensures { result ≡ qualifier_of letter }
    {
        match letter {
            b'1' => Ok(GpsQualifier::Gps),
            b'2' => Ok(GpsQualifier::DGps),
            _ => Err(Refusal::Syntax),
        }
    }

    // The byte of a qualifier.
    pub fn letter(self) -> u8
        ensures { result ≡ qualifier_letter self }
    {
        match self {
            GpsQualifier::Gps => b'1',
            GpsQualifier::DGps => b'2',
        }
    }
}

impl DRecord {
    // Reads a D line, of exactly 6 bytes.
    pub fn parse(line: &[u8]) -> Result<DRecord, Refusal>
        ensures { result ≡ read_d line.now }
    {
        if line.len() != 6 {
            return Err(Refusal::Syntax);
        }
        if line[0] != b'D' {
            return Err(Refusal::Syntax);
        }
        if !is_ascii(line) {
            return Err(Refusal::NotAscii);
        }
        let qualifier = GpsQualifier::from_letter(line[1])?;
        Ok(DRecord {
            station_id: Part { start: 2, len: 4 },
            qualifier,
        })
    }

    // The station, as a part of the caller's own line.
    pub fn station_id(self, line: &[u8]) -> &[u8]
        ensures { Shows line.entry (shown (find_part self.station_id line.now)) result }
    {
        self.station_id.view(line)
    }

    // Prints the record beside its line.
    pub fn print(self, line: &[u8], buf: &mut [u8]) -> Result<usize, Refusal>
        ensures { Prints (d_text self line.now) buf.old buf.new result }
    {
        self.station_id.find(line)?;
        print_beside(self, line, buf)
    }
}

// The text as a piece of a larger one.
impl LinePiece for DRecord {
    ghost piece = { d_piece };

    fn put_piece(self, buf: &mut [u8], at: usize, line: &[u8]) -> usize {
        let at_qualifier = put_byte(buf, at, b'D');
        let at_station = put_byte(buf, at_qualifier, self.qualifier.letter());
        put_part(buf, at_station, line, self.station_id)
    }
}
