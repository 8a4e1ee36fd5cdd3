// The total of a sheet, read back from its last block.
#![tactic(auto)]

ghost use Rattle.std.specs.Prelude.{◌+◌, ◌≤◌, ◌≡◌, true, length, take, drop};
ghost use Rattle.sheet_read.specs.Sheet.{from_all_of, ends, read_sheet_of, sheet_in};

use block_read::{read_block, starts_with};
use total::Total;

// A text is no sheet: the line, from 1, at which it is none.
#[derive(Clone, Copy, PartialEq, Eq)]
pub struct Wrong {
    pub line: u64,
}

// Where the first line begins that begins with `all `; without one, the end.
pub fn find_all(text: &[u8]) -> usize
    ensures text_value { drop result text.now ≡ from_all_of true text.now }
    ensures upper_bound { result ≤ length text.now }
{
    let mut start = true;
    for i in 0..text.len() {
        if start {
            if starts_with(&text[i..], b"all ") {
                return i;
            }
        }
        start = text[i] == b'\n';
    }
    text.len()
}

// How many lines end in a text.
pub fn count_ends(text: &[u8]) -> u64
    ensures { result ≡ ends text.now }
{
    let mut count: u64 = 0;
    for &b in text {
        if b == b'\n' {
            count += 1;
        }
    }
    count
}

// It is no sheet from that place on.
fn wrong_at(text: &[u8], stop: usize) -> Wrong
    requires { stop ≤ length text.now }
    ensures { result.line ≡ ends (take stop text.now) + 1 }
{
    let line = count_ends(&text[..stop]) + 1;
    Wrong { line }
}

// The total of a sheet, or the line at which it is none.
pub fn read_sheet(text: &[u8]) -> Result<Total, Wrong>
    ensures { sheet_in result ≡ read_sheet_of text.now }
{
    let at = find_all(text);
    match read_block(&text[at..]) {
        Ok((total, end)) => {
            let stop = at + end;
            if stop == text.len() {
                return Ok(total);
            }
            Err(wrong_at(text, stop))
        }
        Err(end) => Err(wrong_at(text, at + end)),
    }
}
