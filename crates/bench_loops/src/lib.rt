// What bench/ times: whole logs through the public reader. Each answer is a figure over all that a fresh walk reads, so
// that no reading can be left out.
#![tactic(auto)]

pub mod moments;

ghost use Rattle.std.specs.Prelude.{◌≡◌};
ghost use Rattle.record_print.specs.Printed.{answer_printed};
ghost use Rattle.bench_loops.specs.Timed.{above as Timed·above, of_fix_of, of_answer, of_value_of, of_named_of, PrintedLine};
ghost use Rattle.report.specs.Peak.{range_in};
ghost use Rattle.bench_loops.specs.Timed.{of_range, read_sum, report_sum, look_up_sum, printed_out};

use b_record::{BRecord, Height};
use field::Mnemonic;
use held::Held;
use held::tables::Tables;
use part::InLine;
use record_print::print_record;
use records::{Reading, fix_in};
use report::peak::{Peak, TimeRange};
use report::range::Extremes;
use reported::end::walk_to_end;
use std::num::wrapping_add_u64;
use walk::Walk;
use walk::turn::read_at;

#[tactic(auto, unfolding(crate::specs::Timed::above))]
fn above(height: i16) -> u64
    ensures { result ≡ Timed·above height }
{
    if height < 0 { 0 } else { height as u64 }
}

fn of_fix(fix: BRecord) -> u64
    ensures { result ≡ of_fix_of fix }
{
    let time = fix.timestamp;
    let pos = fix.pos;
    let minutes = pos.lat.0.minute_thousandths as u64 + pos.lon.0.minute_thousandths as u64;
    let heights = above(fix.pressure_alt.0) + above(fix.gps_alt.0);
    time.seconds_since_midnight() as u64 + minutes + heights
}

#[tactic(auto, unfolding(crate::specs::Timed::of_answer, crate::specs::Timed::of_accepted))]
fn of_reading(reading: Reading) -> u64
    ensures { result ≡ of_answer reading }
{
    match reading {
        Err(_) => 0,
        Ok(seen) => match seen.fix() {
            Some(fix) => of_fix(fix),
            None => 1,
        },
    }
}

// Lines cut and read, the table left alone.
pub fn timed_read(log: &[u8]) -> u64
    ensures { result ≡ read_sum log.now }
{
    let mut sum: u64 = 0;
    let mut at = 0;
    // A `while`, since it steps by what a line takes.
    while at < log.len() {
        let got = read_at(log, at);
        let reading = got.reading;
        sum = wrapping_add_u64(sum, of_reading(reading));
        at = got.next;
    }
    sum
}

// The same by steps of a walk, which carries the table along.
pub fn timed_step(log: &[u8]) -> u64
    ensures { result ≡ read_sum log.now }
{
    let mut walk = Walk::new();
    let mut sum: u64 = 0;
    // A `while`, since it steps by what a line takes.
    while walk.at.place < log.len() {
        let step = walk.step(log);
        let Some((_, reading)) = step.taken else {
            return sum;
        };
        sum = wrapping_add_u64(sum, of_reading(reading));
        walk = step.walk;
    }
    sum
}

// Of the heights of a datum.
fn of_heights<H: Height>(range: Option<Extremes<Peak<H>>>) -> u64
    ensures { result ≡ of_range (λ p. Timed·above (H.metres_of p.height)) (range_in range) }
{
    match range {
        None => 0,
        Some(ends) => {
            wrapping_add_u64(
                above(ends.high.height.metres()),
                above(ends.low.height.metres()),
            )
        }
    }
}

#[tactic(auto, unfolding(crate::specs::Timed::of_range, crate::specs::Timed::summed))]
fn of_times(range: TimeRange) -> u64
    ensures { result ≡ of_range (λ t. t) (range_in range) }
{
    match range {
        None => 0,
        Some(ends) => wrapping_add_u64(ends.high as u64, ends.low as u64),
    }
}

// A walk to its end, which keeps tables and report: the report's figures.
pub fn timed_walk(log: &[u8]) -> u64
    ensures { result ≡ report_sum log.now }
{
    let walk = walk_to_end(Walk::new(), log);
    let report = walk.report;
    let counts = wrapping_add_u64(report.lines, report.fixes);
    let heights = wrapping_add_u64(of_heights(report.pressure), of_heights(report.gps));
    wrapping_add_u64(wrapping_add_u64(counts, heights), of_times(report.times))
}

#[tactic(auto, unfolding(crate::specs::Timed::of_value_of, crate::specs::Timed::summed))]
fn of_value(value: &[u8]) -> u64
    ensures { result ≡ of_value_of value.now }
{
    if value.len() == 0 {
        return 0;
    }
    wrapping_add_u64(value.len() as u64, value[0] as u64)
}

#[tactic(auto, unfolding(crate::specs::Timed::of_named_of))]
fn of_named(name: Mnemonic, held: Held, fix: Option<BRecord>, line: &[u8]) -> u64
    ensures { result ≡ of_named_of name held fix line.now }
{
    match fix {
        Some(b) => of_value(held.get(BRecord::BASE_LENGTH, b.rest, name, line)),
        None => 0,
    }
}

// Lines cut and read, and on each fix the value of a name, by the table in force.
pub fn timed_lookup(log: &[u8], a: u8, b: u8, c: u8) -> u64
    ensures { result ≡ look_up_sum (record { 0 = a; 1 = b; 2 = c }) log.now }
{
    let name = Mnemonic(a, b, c);
    let mut held = Tables::new();
    let mut sum: u64 = 0;
    let mut at = 0;
    // A `while`, since it steps by what a line takes.
    while at < log.len() {
        let got = read_at(log, at);
        let part = got.line;
        let reading = got.reading;
        let line = part.view(log);
        held = held.after(line);
        sum = wrapping_add_u64(sum, of_reading(reading));
        sum = wrapping_add_u64(sum, of_named(name, held.i, fix_in(reading), line));
        at = got.next;
    }
    sum
}

// What was read, printed again; the length of its text, and 0 where there is none.
fn print_line(reading: Reading, line: &[u8], buf: &mut [u8]) -> u64
    ensures { PrintedLine (answer_printed reading line.now) buf.old
        buf.new result }
{
    match reading {
        Err(_) => 0,
        Ok(seen) => match print_record(seen, seen.table(line), line, buf) {
            Ok(n) => n as u64,
            Err(_) => 0,
        },
    }
}

// Every record printed again, each from the start of the lent bytes.
pub fn timed_print(log: &[u8], buf: &mut [u8]) -> u64
    ensures { printed_out log.now buf.old ≡ record { sum = result; bytes = buf.new } }
{
    let mut sum: u64 = 0;
    let mut at = 0;
    // A `while`, since it steps by what a line takes.
    while at < log.len() {
        let got = read_at(log, at);
        let part = got.line;
        let reading = got.reading;
        let line = part.view(log);
        sum = wrapping_add_u64(sum, print_line(reading, line, buf));
        at = got.next;
    }
    sum
}
