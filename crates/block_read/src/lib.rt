// The block of all logs, read back from the text that `sheet_text` prints of it.
#![tactic(auto)]

mod answers;
mod heights;
mod number;
mod times;

ghost use Rattle.std.specs.Prelude.{◌≤◌, ◌≡◌, length};
ghost use Rattle.total.specs.Total.{total_in};
ghost use Rattle.block_read.specs.Read.{starts_with};
ghost use Rattle.block_read.specs.Block.{read_all, block_of, block_read};
ghost use Rattle.block_read.specs.Held.{Came};

use crate::answers::read_answers;
use crate::heights::{read_gps, read_pressure};
use crate::number::{Place, read_line, stands};
use crate::times::read_times;
use total::Total;

// The total that was read, and the place behind it.
#[derive(Clone, Copy)]
struct AllRead {
    total: Total,
    place: Place,
}

// The block of all logs.
fn read_all(text: &[u8], from: Place) -> AllRead
    requires { from.at ≤ length text.now }
    ensures { Came text.now from read_all result.place (total_in result.total) }
{
    let logs = read_line(text, from, b"all ");
    let lines = read_line(text, logs.place, b"lines ");
    let counts = read_answers(text, lines.place);
    let fixes = read_line(text, counts.place, b"fixes ");
    let pressure = read_pressure(text, fixes.place);
    let gps = read_gps(text, pressure.place);
    let times = read_times(text, gps.place);
    let answers = counts.counts;
    let total = Total {
        answers,
        logs: logs.value,
        lines: lines.value,
        fixes: fixes.value,
        pressure: pressure.span,
        gps: gps.span,
        times: times.times,
    };
    let place = times.place;
    AllRead { total, place }
}

// The block that a text begins with, and the place behind it; or the place from where on the text is wrong.
pub fn read_block(text: &[u8]) -> Result<(Total, usize), usize>
    ensures { block_read result ≡ block_of text.now }
{
    let all = read_all(text, Place { at: 0, good: true });
    let end = all.place.at;
    if !all.place.good {
        return Err(end);
    }
    let total = all.total;
    Ok((total, end))
}

// The text begins with these words.
pub fn starts_with(text: &[u8], words: &[u8]) -> bool
    ensures { result ≡ starts_with words.now text.now }
{
    stands(text, 0, words)
}
