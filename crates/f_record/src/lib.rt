// F lines, as src/records/f_record.rs has them.
#![tactic(auto)]

ghost use Rattle.std.specs.Prelude.{◌≡◌};
ghost use Rattle.part.specs.Part.{find_part, shown, Shows};
ghost use Rattle.print.specs.Print.{Prints};
ghost use Rattle.f_record.specs.FRecord.{read_f, f_piece, f_text, f_book};

use field::is_ascii;
use part::{InLine, Part};
use print::printed::{LinePiece, Piece, print_beside};
use put::{put_byte, put_part};
use satellites::Satellites;
use text::refusal::{Refusal, counted_from};
use time::Time;

// The satellites from a time on: the list as it is written, and the set of its numbers.
#[derive(Clone, Copy)]
pub struct FRecord {
    pub list: Part,
    pub satellites: Satellites,
    pub time: Time,
}

impl FRecord {
    // Reads an F line; as in the Rust, its first byte is not looked at.
    pub fn parse(line: &[u8]) -> Result<FRecord, Refusal>
        ensures { result ≡ read_f line.now }
    {
        if line.len() < 7 {
            return Err(Refusal::Syntax);
        }
        if (line.len() - 7) % 2 != 0 {
            return Err(Refusal::Syntax);
        }
        if !is_ascii(line) {
            return Err(Refusal::NotAscii);
        }
        let time = counted_from(1, Time::parse_ascii(&line[1..7]))?;
        let satellites = counted_from(7, Satellites::parse(&line[7..]))?;
        Ok(FRecord {
            list: Part::from_column(7, line),
            satellites,
            time,
        })
    }

    // The list, as a part of the caller's own line.
    pub fn list(self, line: &[u8]) -> &[u8]
        ensures { Shows line.entry (shown (find_part self.list line.now)) result }
    {
        self.list.view(line)
    }

    // Its time is by the book.
    pub fn by_the_book(self) -> bool
        ensures { result ≡ f_book self }
    {
        self.time.by_the_book()
    }

    // Prints the record beside its line.
    pub fn print(self, line: &[u8], buf: &mut [u8]) -> Result<usize, Refusal>
        ensures { Prints (f_text self line.now) buf.old buf.new result }
    {
        self.list.find(line)?;
        print_beside(self, line, buf)
    }
}

// The text as a piece of a larger one.
impl LinePiece for FRecord {
    ghost piece = { f_piece };

    fn put_piece(self, buf: &mut [u8], at: usize, line: &[u8]) -> usize {
        let at_time = put_byte(buf, at, b'F');
        let at_list = self.time.put(buf, at_time);
        put_part(buf, at_list, line, self.list)
    }
}
