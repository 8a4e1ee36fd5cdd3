// Turnpoints of a task, as src/records/c_record.rs has them.
#![tactic(auto)]

ghost use Rattle.std.specs.Prelude.{◌≡◌, ℕ, List};
ghost use Rattle.part.specs.Part.{find_maybe, shown, Shows};
ghost use Rattle.put.specs.Put.{Wrote};
ghost use Rattle.print.specs.Print.{Prints};
ghost use Rattle.c_turnpoint_record.specs.CTurnpoint.{read_turnpoint, turnpoint_piece, turnpoint_text};
ghost use Rattle.c_turnpoint_record.specs.CTurnpoint.{turnpoint_book};

use field::is_ascii;
use part::{InLine, Part};
use position::RawPosition;
use print::printed::{LinePiece, Piece, print_beside};
use put::{put_byte, put_part};
use text::refusal::{Refusal, counted_from};

#[derive(Clone, Copy)]
pub struct CRecordTurnpoint {
    pub turnpoint_name: Option<Part>,
    pub position: RawPosition,
}

impl CRecordTurnpoint {
    // Reads a turnpoint.
    pub fn parse(line: &[u8]) -> Result<CRecordTurnpoint, Refusal>
        ensures { result ≡ read_turnpoint line.now }
    {
        if line.len() < 18 {
            return Err(Refusal::Syntax);
        }
        if line[0] != b'C' {
            return Err(Refusal::Syntax);
        }
        if !is_ascii(&line[0..18]) {
            return Err(Refusal::NotAscii);
        }
        let position = counted_from(1, RawPosition::parse(&line[1..18]))?;
        Ok(CRecordTurnpoint {
            turnpoint_name: Part::from_column_or_none(18, line),
            position,
        })
    }

    // The turnpoint's name, as a part of the caller's own line.
    pub fn turnpoint_name(self, line: &[u8]) -> &[u8]
        ensures { Shows line.entry (shown (find_maybe self.turnpoint_name line.now)) result }
    {
        self.turnpoint_name.view(line)
    }

    // Its position is by the book.
    pub fn by_the_book(self) -> bool
        ensures { result ≡ turnpoint_book self }
    {
        self.position.by_the_book()
    }

    // Prints the record beside its line.
    pub fn print(self, line: &[u8], buf: &mut [u8]) -> Result<usize, Refusal>
        ensures { Prints (turnpoint_text self line.now) buf.old buf.new result }
    {
        self.turnpoint_name.find(line)?;
        print_beside(self, line, buf)
    }
}

// Bytes that are too short cut the text, and what lies outside the line is left out. `print` is the printer.
impl LinePiece for CRecordTurnpoint {
    ghost piece = { turnpoint_piece };

    fn put_piece(self, buf: &mut [u8], at: usize, line: &[u8]) -> usize {
        let at_first = put_byte(buf, at, b'C');
        let at_second = self.position.put(buf, at_first);
        put_part(buf, at_second, line, self.turnpoint_name)
    }
}
