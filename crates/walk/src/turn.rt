// A turn of a loop over a log: the line at a place, cut and read.
ghost use Rattle.std.specs.Prelude.{◌≡◌};
ghost use Rattle.walk.specs.Turn.{got_at};

use igc_log::cut_at;
use part::{InLine, Part};
use records::{Reading, Record};

// What was read, of which part of the log, and the place after it.
#[derive(Clone, Copy)]
pub struct Got {
    pub reading: Reading,
    pub line: Part,
    pub next: usize,
}

// The line that begins at a place, read; past the log's end it is empty.
pub fn read_at(log: &[u8], at: usize) -> Got
    ensures { result ≡ got_at at log.now }
{
    let cut = cut_at(log, at);
    Got {
        reading: Record::parse_line(cut.line.view(log)),
        line: cut.line,
        next: cut.next,
    }
}
