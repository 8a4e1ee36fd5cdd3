// G lines, as src/records/g_record.rs has them.
#![tactic(auto)]

ghost use Rattle.std.specs.Prelude.{◌≡◌};
ghost use Rattle.part.specs.Part.{find_part, shown, Shows};
ghost use Rattle.print.specs.Print.{Prints};
ghost use Rattle.g_record.specs.GRecord.{read_g, g_piece, g_text};

use part::{InLine, Part};
use print::printed::{LinePiece, print_beside};
use put::{put_byte, put_part};
use text::line::begins;
use text::refusal::Refusal;

// Security: what stands there is the maker's own, and no judgement of it.
#[derive(Clone, Copy)]
pub struct GRecord {
    pub data: Part,
}

impl GRecord {
    // Reads a G line.
    pub fn parse(line: &[u8]) -> Result<GRecord, Refusal>
        ensures { result ≡ read_g line.now }
    {
        if !begins(b'G', line) {
            return Err(Refusal::Syntax);
        }
        Ok(GRecord {
            data: Part::from_column(1, line),
        })
    }

    // What stands behind the letter, as a part of the caller's own line.
    pub fn data(self, line: &[u8]) -> &[u8]
        ensures { Shows line.entry (shown (find_part self.«data» line.now)) result }
    {
        self.data.view(line)
    }

    // Prints the record beside its line.
    pub fn print(self, line: &[u8], buf: &mut [u8]) -> Result<usize, Refusal>
        ensures { Prints (g_text self line.now) buf.old buf.new result }
    {
        self.data.find(line)?;
        print_beside(self, line, buf)
    }
}

// The text as a piece of a larger one.
impl LinePiece for GRecord {
    ghost piece = { g_piece };

    fn put_piece(self, buf: &mut [u8], at: usize, line: &[u8]) -> usize {
        let at_data = put_byte(buf, at, b'G');
        put_part(buf, at_data, line, self.data)
    }
}
