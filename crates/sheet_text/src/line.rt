// Lines of numbers, each behind its words and closed by LF.
ghost use Rattle.put.specs.Put.{Wrote};
ghost use Rattle.report.specs.Peak.{range_in};
ghost use Rattle.sheet_text.specs.Sheet.{number_line, answer_line, answer_lines, count_lines, time_lines, at_place_of};
ghost use Rattle.sheet_text.specs.Sheet.{at_spot};

use print::number::put_nat;
use put::{put_byte, put_bytes};
use report::peak::TimeRange;
use report::range::Extremes;

// A number behind its words.
pub(crate) fn put_number(buf: &mut [u8], at: usize, words: &[u8], n: u64) -> usize
    ensures { Wrote buf.old at (number_line words.now n) buf.new result }
{
    let at_number = put_bytes(buf, at, words);
    let at_end = put_nat(buf, at_number, n, 1);
    put_byte(buf, at_end, b'\n')
}

// How many lines have that answer; where none has, nothing.
fn put_answer(buf: &mut [u8], at: usize, answer: u64, count: u64) -> usize
    ensures { Wrote buf.old at (answer_line answer count) buf.new result }
{
    if count == 0 {
        return at;
    }
    let at_answer = put_bytes(buf, at, b"answer ");
    let at_count = put_nat(buf, at_answer, answer, 1);
    put_number(buf, at_count, b" ", count)
}

// How many lines have each answer.
fn put_answers(buf: &mut [u8], at: usize, answers: [u64; 13]) -> usize
    ensures { Wrote buf.old at (answer_lines 0 answers) buf.new result }
{
    let mut next = at;
    for i in 0..13 {
        next = put_answer(buf, next, i as u64, answers[i]);
    }
    next
}

// How many lines, lines by answer, and accepted B lines.
pub(crate) fn put_counts(
    buf: &mut [u8],
    at: usize,
    lines: u64,
    answers: [u64; 13],
    fixes: u64,
) -> usize
    ensures { Wrote buf.old at (count_lines lines answers fixes) buf.new result }
{
    let at_answers = put_number(buf, at, b"lines ", lines);
    let at_fixes = put_answers(buf, at_answers, answers);
    put_number(buf, at_fixes, b"fixes ", fixes)
}

// The earliest time and then the latest.
pub(crate) fn put_times(buf: &mut [u8], at: usize, times: TimeRange) -> usize
    ensures { Wrote buf.old at (time_lines (range_in times)) buf.new result }
{
    match times {
        None => put_bytes(buf, at, b"time none\n"),
        Some(Extremes { high, low }) => {
            let next = put_number(buf, at, b"time first ", low as u64);
            put_number(buf, next, b"time last ", high as u64)
        }
    }
}

// A place in a log.
pub(crate) fn put_place(buf: &mut [u8], at: usize, place: u64) -> usize
    ensures { Wrote buf.old at (at_place_of place) buf.new result }
{
    put_number(buf, at, b" at ", place)
}

// A place in one of some logs.
pub(crate) fn put_spot(buf: &mut [u8], at: usize, log: u64, place: u64) -> usize
    ensures { Wrote buf.old at (at_spot log place) buf.new result }
{
    let at_log = put_bytes(buf, at, b" at ");
    let at_place = put_nat(buf, at_log, log, 1);
    put_number(buf, at_place, b":", place)
}
