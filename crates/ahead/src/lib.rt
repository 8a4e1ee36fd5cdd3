// The lines that are left of a text from a place on, told by a contract: for what stands above the reader and sees its
// promises alone.
#![tactic(auto)]

ghost use Rattle.std.specs.Prelude.{◌≡◌};
ghost use Rattle.ahead.specs.Ahead.{Ahead};

use igc_log::{Cut, cut_at};

// The line that begins at a place, cut; past the text's end it is empty.
pub fn cut_ahead(text: &[u8], at: usize) -> Cut
    ensures { Ahead text.now at result }
{
    cut_at(text, at)
}
