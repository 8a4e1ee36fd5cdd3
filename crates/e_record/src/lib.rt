// E lines, as src/records/e_record.rs has them.
#![tactic(auto)]

ghost use Rattle.std.specs.Prelude.{◌≡◌};
ghost use Rattle.part.specs.Part.{find_part, find_maybe, shown, Shows};
ghost use Rattle.print.specs.Print.{Prints};
ghost use Rattle.e_record.specs.ERecord.{read_e, e_piece, e_text, e_book};

use field::is_ascii;
use part::{InLine, Part};
use print::printed::{LinePiece, Piece, print_beside};
use put::{put_byte, put_part};
use text::refusal::{Refusal, counted_from};
use time::Time;

// An event of the flight; the fix that belongs to it is that of the next B line.
#[derive(Clone, Copy)]
pub struct ERecord {
    pub mnemonic: Part,
    pub text: Option<Part>,
    pub time: Time,
}

impl ERecord {
    // Reads an E line.
    pub fn parse(line: &[u8]) -> Result<ERecord, Refusal>
        ensures { result ≡ read_e line.now }
    {
        if line.len() < 10 {
            return Err(Refusal::Syntax);
        }
        if line[0] != b'E' {
            return Err(Refusal::Syntax);
        }
        if !is_ascii(&line[0..10]) {
            return Err(Refusal::NotAscii);
        }
        let time = counted_from(1, Time::parse(&line[1..7]))?;
        Ok(ERecord {
            mnemonic: Part { start: 7, len: 3 },
            text: Part::from_column_or_none(10, line),
            time,
        })
    }

    // The code of the event, as a part of the caller's own line.
    pub fn mnemonic(self, line: &[u8]) -> &[u8]
        ensures { Shows line.entry (shown (find_part self.mnemonic line.now)) result }
    {
        self.mnemonic.view(line)
    }

    // Its text, as a part of the caller's own line.
    pub fn text(self, line: &[u8]) -> &[u8]
        ensures { Shows line.entry (shown (find_maybe self.text line.now)) result }
    {
        self.text.view(line)
    }

    // Its time is by the book.
    pub fn by_the_book(self) -> bool
        ensures { result ≡ e_book self }
    {
        self.time.by_the_book()
    }

    // Prints the record beside its line.
    pub fn print(self, line: &[u8], buf: &mut [u8]) -> Result<usize, Refusal>
        ensures { Prints (e_text self line.now) buf.old buf.new result }
    {
        self.mnemonic.find(line)?;
        self.text.find(line)?;
        print_beside(self, line, buf)
    }
}

// The text as a piece of a larger one.
impl LinePiece for ERecord {
    ghost piece = { e_piece };

    fn put_piece(self, buf: &mut [u8], at: usize, line: &[u8]) -> usize {
        let at_time = put_byte(buf, at, b'E');
        let at_mnemonic = self.time.put(buf, at_time);
        let at_text = put_part(buf, at_mnemonic, line, self.mnemonic);
        put_part(buf, at_text, line, self.text)
    }
}
