// L lines, as src/records/l_record.rs has them; the Rust keeps source and text in one string.
#![tactic(auto)]

ghost use Rattle.std.specs.Prelude.{◌≡◌};
ghost use Rattle.part.specs.Part.{find_part, find_maybe, shown, Shows};
ghost use Rattle.print.specs.Print.{Prints};
ghost use Rattle.l_record.specs.LRecord.{read_l, l_piece, l_text};

use field::is_ascii;
use part::{InLine, Part};
use print::printed::{LinePiece, print_beside};
use put::{put_byte, put_part};
use text::refusal::Refusal;

// A remark, and who or what wrote it: a maker's code, or as PLT the pilot's.
#[derive(Clone, Copy)]
pub struct LRecord {
    pub source: Part,
    pub text: Option<Part>,
}

impl LRecord {
    // Reads an L line.
    pub fn parse(line: &[u8]) -> Result<LRecord, Refusal>
        ensures { result ≡ read_l line.now }
    {
        if line.len() < 4 {
            return Err(Refusal::Syntax);
        }
        if line[0] != b'L' {
            return Err(Refusal::Syntax);
        }
        if !is_ascii(&line[0..4]) {
            return Err(Refusal::NotAscii);
        }
        Ok(LRecord {
            source: Part { start: 1, len: 3 },
            text: Part::from_column_or_none(4, line),
        })
    }

    // The source, as a part of the caller's own line.
    pub fn source(self, line: &[u8]) -> &[u8]
        ensures { Shows line.entry (shown (find_part self.source line.now)) result }
    {
        self.source.view(line)
    }

    // The text, as a part of the caller's own line.
    pub fn text(self, line: &[u8]) -> &[u8]
        ensures { Shows line.entry (shown (find_maybe self.text line.now)) result }
    {
        self.text.view(line)
    }

    // Prints the record beside its line.
    pub fn print(self, line: &[u8], buf: &mut [u8]) -> Result<usize, Refusal>
        ensures { Prints (l_text self line.now) buf.old buf.new result }
    {
        self.source.find(line)?;
        self.text.find(line)?;
        print_beside(self, line, buf)
    }
}

// The text as a piece of a larger one.
impl LinePiece for LRecord {
    ghost piece = { l_piece };

    fn put_piece(self, buf: &mut [u8], at: usize, line: &[u8]) -> usize {
        let at_source = put_byte(buf, at, b'L');
        let at_text = put_part(buf, at_source, line, self.source);
        put_part(buf, at_text, line, self.text)
    }
}
