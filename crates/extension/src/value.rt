// Extension values: what a definition names in a line, behind the columns that every such line has.
ghost use Rattle.std.specs.Prelude.{◌≡◌};
ghost use Rattle.part.specs.Part.{shown, Shows};
ghost use Rattle.extension.specs.Value.{find_value};

use crate::Extension;
use part::{InLine, Part};
use text::refusal::Refusal;

impl Extension {
    // Where the value stands in a line with `base` fixed columns and this rest.
    pub fn find(self, base: usize, rest: Part, line: &[u8]) -> Result<Part, Refusal>
        ensures { result ≡ find_value base rest self line.now }
    {
        let inside = rest.find(line)?;
        let first = self.start_byte as usize;
        let last = self.end_byte as usize;
        if first <= base {
            return Err(Refusal::BadExtension);
        }
        if last < first {
            return Err(Refusal::BadExtension);
        }
        if inside.len < last - base {
            return Err(Refusal::MissingExtension);
        }
        Ok(Part {
            start: inside.start + (first - base - 1),
            len: last - first + 1,
        })
    }

    // The value itself, as a part of the caller's own line.
    pub fn get_extension(self, base: usize, rest: Part, line: &[u8]) -> &[u8]
        ensures { Shows line.entry (shown (find_value base rest self line.now)) result }
    {
        match self.find(base, rest, line) {
            Ok(value) => value.view(line),
            Err(_no) => &line[0..0],
        }
    }
}
