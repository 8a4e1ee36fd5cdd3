// K lines, as src/records/k_record.rs has them.
#![tactic(auto)]

ghost use Rattle.std.specs.Prelude.{◌≡◌};
ghost use Rattle.part.specs.Part.{find_part, shown, Shows};
ghost use Rattle.extension.specs.Value.{find_value};
ghost use Rattle.print.specs.Print.{Prints};
ghost use Rattle.k_record.specs.KRecord.{read_k, k_piece, k_text, k_book};

use extension::Extension;
use field::is_ascii;
use part::{InLine, Part};
use print::printed::{LinePiece, Piece, print_beside};
use put::{put_byte, put_part};
use text::refusal::{Refusal, counted_from};
use time::Time;

// A time by default, and what the J line names behind it, as wind and temperature.
#[derive(Clone, Copy)]
pub struct KRecord {
    pub rest: Part,
    pub time: Time,
}

impl KRecord {
    pub const BASE_LENGTH: usize = 7;

    // Reads a K line of at least 7 ASCII bytes. (The Rust wants 8: docs/DIFFERENCES.md.)
    pub fn parse(line: &[u8]) -> Result<KRecord, Refusal>
        ensures { result ≡ read_k line.now }
    {
        if line.len() < KRecord::BASE_LENGTH {
            return Err(Refusal::Syntax);
        }
        if line[0] != b'K' {
            return Err(Refusal::Syntax);
        }
        if !is_ascii(line) {
            return Err(Refusal::NotAscii);
        }
        let time = counted_from(1, Time::parse_ascii(&line[1..7]))?;
        Ok(KRecord {
            rest: Part::from_column(KRecord::BASE_LENGTH, line),
            time,
        })
    }

    // The bytes after the fixed columns, as a part of the caller's own line.
    pub fn rest(self, line: &[u8]) -> &[u8]
        ensures { Shows line.entry (shown (find_part self.rest line.now)) result }
    {
        self.rest.view(line)
    }

    // Where the value of an extension stands in the line.
    pub fn find_extension(self, extension: Extension, line: &[u8]) -> Result<Part, Refusal>
        ensures { result ≡ find_value 7 self.rest extension line.now }
    {
        extension.find(KRecord::BASE_LENGTH, self.rest, line)
    }

    // The value itself, as a part of the caller's own line.
    pub fn get_extension(self, extension: Extension, line: &[u8]) -> &[u8]
        ensures { Shows line.entry (shown (find_value 7 self.rest extension line.now)) result }
    {
        extension.get_extension(KRecord::BASE_LENGTH, self.rest, line)
    }

    // Its time is by the book.
    pub fn by_the_book(self) -> bool
        ensures { result ≡ k_book self }
    {
        self.time.by_the_book()
    }

    // Prints the record beside its line.
    pub fn print(self, line: &[u8], buf: &mut [u8]) -> Result<usize, Refusal>
        ensures { Prints (k_text self line.now) buf.old buf.new result }
    {
        self.rest.find(line)?;
        print_beside(self, line, buf)
    }
}

// The text as a piece of a larger one.
impl LinePiece for KRecord {
    ghost piece = { k_piece };

    fn put_piece(self, buf: &mut [u8], at: usize, line: &[u8]) -> usize {
        let at_time = put_byte(buf, at, b'K');
        let at_rest = self.time.put(buf, at_time);
        put_part(buf, at_rest, line, self.rest)
    }
}
