// The peers' lesson: a fix whose two heights differ, by every path on which a height leaves the reader. Once two
// readers took the two columns the other way round, and a published gain had to be struck out.
#![tactic(auto)]

use b_record::{BRecord, Height};
use fields_text::line::put_line;
use gate_say::write;
use held::tables::Tables;
use listing_text::listing::print_listing;
use record_print::print_record;
use records::Record;
use text::refusal::Refusal;

fn say(rt: HostRuntime, text: &[u8], n: usize) {
    if n <= text.len() {
        write(rt, &text[0..n]);
    }
}

fn say_printed(rt: HostRuntime, answer: Result<usize, Refusal>, text: &[u8]) {
    match answer {
        Ok(n) => say(rt, text, n),
        Err(_) => {
            write(rt, b"refused");
        }
    }
}

// The record's own fields. The rooms here are fixed, since there is no heap.
fn record(rt: HostRuntime, line: &[u8]) {
    write(rt, b"record: pressure ");
    match BRecord::parse(line) {
        Ok(fix) => {
            let mut text = [0u8; 8];
            let n = fix.pressure_alt.put(&mut text, 0, 1);
            say(rt, &text, n);
            write(rt, b", GPS ");
            let m = fix.gps_alt.put(&mut text, 0, 1);
            say(rt, &text, m);
        }
        Err(_) => {
            write(rt, b"refused");
        }
    }
    write(rt, b"\n");
}

fn listing(rt: HostRuntime, line: &[u8]) {
    let mut text = [0u8; 64];
    let answer = print_listing(line, &mut text);
    write(rt, b"listing: ");
    say_printed(rt, answer, &text);
}

fn fields(rt: HostRuntime, line: &[u8]) {
    let mut text = [0u8; 256];
    let n = put_line(
        &mut text,
        0,
        1,
        line,
        Record::parse_line(line),
        Tables::new(),
        b"",
    );
    write(rt, b"fields: ");
    say(rt, &text, n);
}

// What `print_record` writes. The line has a sign that a printed line has not, so its own bytes do not pass for that.
fn printed(rt: HostRuntime, line: &[u8]) {
    let mut text = [0u8; 64];
    write(rt, b"printed: ");
    match Record::parse_line(line) {
        Ok(record) => {
            let answer = print_record(record, record.table(line), line, &mut text);
            say_printed(rt, answer, &text);
        }
        Err(_) => {
            write(rt, b"refused");
        }
    }
    write(rt, b"\n");
}

fn main(rt: HostRuntime) {
    let line = b"B1015304712345N01102500EA+152301561";
    record(rt, line);
    listing(rt, line);
    fields(rt, line);
    printed(rt, line);
}
