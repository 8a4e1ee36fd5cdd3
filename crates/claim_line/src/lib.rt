// What a record claim asks of one line of a log.
#![tactic(auto)]

ghost use Rattle.std.specs.Prelude.{◌≡◌};
ghost use Rattle.records.specs.Record.{answer_fix};
ghost use Rattle.claim_line.specs.Asked.{is_accepted_of, is_book_of, second_in_of, asked_of, asked_at_of};

use part::InLine;
use records::{Reading, answer_number, fix_in};
use text::line::begins;
use walk::turn::read_at;

// Whether it begins with A, with I, with J, with B; has at most 76 bytes; is accepted; by the book; and its second.
#[derive(Clone, Copy)]
pub struct Asked {
    pub a: bool,
    pub i: bool,
    pub j: bool,
    pub b: bool,
    pub short: bool,
    pub accepted: bool,
    pub book: bool,
    pub second: Option<u32>,
}

// The same of the line at a place, and the place after it.
#[derive(Clone, Copy)]
pub struct AskedAt {
    pub asked: Asked,
    pub next: usize,
}

// 12 is not accepted here.
fn is_accepted(reading: Reading) -> bool
    ensures { result ≡ is_accepted_of reading }
{
    let number = answer_number(reading);
    number == 0
}

// What was accepted is by the book.
#[tactic(auto, unfolding(crate::specs::Asked::is_book_of))]
fn is_book(reading: Reading) -> bool
    ensures { result ≡ is_book_of reading }
{
    match reading {
        Ok(record) => record.by_the_book(),
        Err(_) => true,
    }
}

#[tactic(auto, unfolding(crate::specs::Asked::second_in_of))]
fn second_in(reading: Reading) -> Option<u32>
    ensures { result ≡ second_in_of (answer_fix reading) }
{
    let fix = fix_in(reading)?;
    Some(fix.timestamp.seconds_since_midnight())
}

fn ask(line: &[u8], reading: Reading) -> Asked
    ensures { result ≡ asked_of line.now reading }
{
    Asked {
        a: begins(b'A', line),
        i: begins(b'I', line),
        j: begins(b'J', line),
        b: begins(b'B', line),
        short: line.len() <= 76,
        accepted: is_accepted(reading),
        book: is_book(reading),
        second: second_in(reading),
    }
}

// What is asked of the line that begins at a place; past the log's end it is an empty one.
pub fn ask_at(log: &[u8], at: usize) -> AskedAt
    ensures { result ≡ asked_at_of at log.now }
{
    let got = read_at(log, at);
    AskedAt {
        asked: ask(got.line.view(log), got.reading),
        next: got.next,
    }
}
