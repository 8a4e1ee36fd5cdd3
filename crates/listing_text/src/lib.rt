// The text of the listing: a line for each line of the log, and a trailer with counts over them.
#![tactic(auto)]

pub mod listing;
pub mod paper;

ghost use Rattle.std.specs.Prelude.{◌≡◌};
ghost use Rattle.put.specs.Put.{Wrote};
ghost use Rattle.listing_text.specs.Line.{first_letter, answer_text, head_text, fix_heights, heights_of, listing_line};

use b_record::{BRecord, Height};
use print::number::put_nat;
use put::put_byte;
use records::{Reading, answer_number, fix_in};

// The first byte if it is A to Z, else `-`.
fn letter_of(line: &[u8]) -> u8
    ensures { result ≡ first_letter line.now }
{
    if line.len() == 0 || line[0] < b'A' || b'Z' < line[0] {
        return b'-';
    }
    line[0]
}

// Letter and answer, each behind a space.
fn put_answer(buf: &mut [u8], at: usize, line: &[u8], reading: Reading) -> usize
    ensures { Wrote buf.old at (answer_text line.now reading) buf.new result }
{
    let at_letter = put_byte(buf, at, b' ');
    let at_space = put_byte(buf, at_letter, letter_of(line));
    let at_answer = put_byte(buf, at_space, b' ');
    put_nat(buf, at_answer, answer_number(reading) as u64, 1)
}

// Number, letter and answer.
pub fn put_head(buf: &mut [u8], at: usize, number: u64, line: &[u8], reading: Reading) -> usize
    ensures { Wrote buf.old at (head_text number line.now reading) buf.new result }
{
    let at_answer = put_nat(buf, at, number, 1);
    put_answer(buf, at_answer, line, reading)
}

// The pressure height and then the GPS height, each behind a space.
fn put_fix(buf: &mut [u8], at: usize, fix: BRecord) -> usize
    ensures { Wrote buf.old at (fix_heights fix) buf.new result }
{
    let at_pressure = put_byte(buf, at, b' ');
    let at_space = fix.pressure_alt.put(buf, at_pressure, 5);
    let at_gps = put_byte(buf, at_space, b' ');
    fix.gps_alt.put(buf, at_gps, 5)
}

// The heights of a fix; nothing where there is none.
#[tactic(auto, using(put::proofs::Writing::wrote_nothing), unfolding(crate::specs::Line::heights_of))]
fn put_heights(buf: &mut [u8], at: usize, fix: Option<BRecord>) -> usize
    ensures { Wrote buf.old at (heights_of fix) buf.new result }
{
    match fix {
        Some(b) => put_fix(buf, at, b),
        None => at,
    }
}

// A line of the listing, closed by LF.
pub fn put_line(buf: &mut [u8], at: usize, number: u64, line: &[u8], reading: Reading) -> usize
    ensures { Wrote buf.old at (listing_line number line.now reading) buf.new result }
{
    let at_heights = put_head(buf, at, number, line, reading);
    let at_end = put_heights(buf, at_heights, fix_in(reading));
    put_byte(buf, at_end, b'\n')
}
