// The answers to times asked as HHMMSS, a line of text each.
#![tactic(auto)]

ghost use Rattle.std.specs.Prelude.{◌≡◌};
ghost use Rattle.put.specs.Put.{Wrote};
ghost use Rattle.time.specs.Time.{read_time_of};
ghost use Rattle.moment.specs.Moment.{by_index};
ghost use Rattle.moment_text.specs.Answers.{is_asked_of, heights_text, found_text, moment_line, moments_text};

use b_record::{BRecord, Height};
use field::all_digits;
use hours::Index;
use moment::{answer, index_of};
use moment_fix::Moment;
use piece_text::piece::show_number;
use put::{put_byte, put_bytes};
use time::Time;

// Six digits.
pub fn is_asked(word: &[u8]) -> bool
    ensures { result ≡ is_asked_of word.now }
{
    word.len() == 6 && all_digits(word)
}

// The heights of a fix, the pressure height first.
fn put_heights(buf: &mut [u8], at: usize, fix: BRecord) -> usize
    ensures { Wrote buf.old at (heights_text fix) buf.new result }
{
    let at_pressure = put_byte(buf, at, b' ');
    let next = fix.pressure_alt.put(buf, at_pressure, 5);
    let at_gps = put_byte(buf, next, b' ');
    fix.gps_alt.put(buf, at_gps, 5)
}

// What stands behind the answer's number.
fn put_found(buf: &mut [u8], at: usize, answer: Moment) -> usize
    ensures { Wrote buf.old at (found_text answer) buf.new result }
{
    match answer {
        Moment::Found(place, fix) => {
            let at_heights = show_number(buf, at, place as u64);
            put_heights(buf, at_heights, fix)
        }
        Moment::NoSuchFix => at,
        Moment::Refused(_) => at,
    }
}

// The time as asked, the number of the answer, and what was found.
pub fn put_line(buf: &mut [u8], at: usize, word: &[u8], answer: Moment) -> usize
    ensures { Wrote buf.old at (moment_line word.now answer) buf.new result }
{
    let at_answer = put_bytes(buf, at, word);
    let at_found = show_number(buf, at_answer, answer.number() as u64);
    let at_end = put_found(buf, at_found, answer);
    put_byte(buf, at_end, b'\n')
}

// The line of one time, by an index.
fn put_answer(buf: &mut [u8], at: usize, index: Index, log: &[u8], word: &[u8]) -> usize
    ensures { Wrote buf.old at
        (moment_line word.now (by_index index log.now (read_time_of word.now)))
        buf.new result }
{
    let found = answer(index, log, Time::parse(word));
    put_line(buf, at, word, found)
}

// The lines of times of six bytes each, in their order: the answers of the plain walk, by the log's own index.
pub fn put_moments(buf: &mut [u8], at: usize, log: &[u8], words: &[u8]) -> usize
    ensures { Wrote buf.old at (moments_text log.now words.now)
        buf.new result }
{
    let index = index_of(log);
    let count = words.len() / 6;
    let mut end = at;
    for i in 0..count {
        let from = 6 * i;
        let to = from + 6;
        end = put_answer(buf, end, index, log, &words[from..to]);
    }
    end
}
