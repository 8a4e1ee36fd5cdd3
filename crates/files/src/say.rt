// Sentences on standard error. Each names the program and the file; a byte of a name that is no printable character
// shows as `?`.
ghost use Rattle.std.specs.Prelude.{◌≡◌, length};

use crate::outcome::{Failure, Outcome, write_text};
use crate::output::write_all;
use crate::system::{Sink, System};
use crate::terminal::make_visible;
use print::number::put_nat;
use put::put_bytes;
use std::io::{Error, Write};

fn message_buffer() -> [u8; 8192]
    ensures { 8192 ≡ length result }
{
    [0; 8192]
}

// The program, the file, and what about it.
fn put_start(buf: &mut [u8], file: &[u8], what: &[u8]) -> usize {
    let at_name = put_bytes(buf, 0, b"tokelivo: ");
    let at_colon = put_bytes(buf, at_name, file);
    let at_words = put_bytes(buf, at_colon, b": ");
    let end = put_bytes(buf, at_words, what);
    make_visible(buf);
    end
}

// The words for an error by its number, which does not stand with them.
fn put_why(buf: &mut [u8], at: usize, errno: i32) -> usize {
    let why = Error::from_raw_os_error(errno);
    let mut text = [0u8; 320];
    let mut rest = &mut text[..];
    if write!(rest, "{why}").is_err() {
        return at;
    }
    match text.iter().position(|b| *b == b'(') {
        Some(n) if 0 < n => put_bytes(buf, at, &text[0..n - 1]),
        _ => at,
    }
}

// What went wrong, and why, as the last call that failed has it.
pub fn fail(sys: &System, file: &[u8], what: &[u8]) {
    let mut text = message_buffer();
    let at_colon = put_start(&mut text, file, what);
    let at_why = put_bytes(&mut text, at_colon, b": ");
    let at_lf = put_why(&mut text, at_why, sys.errno());
    let end = put_bytes(&mut text, at_lf, b"\n");
    if end <= text.len() {
        let _ = write_all(sys, Sink::Errors, &text[0..end]);
    }
}

// Why a file is not taken, where errno has nothing to say.
pub fn refuse(sys: &System, file: &[u8], why: &[u8]) {
    let mut text = message_buffer();
    let at_lf = put_start(&mut text, file, why);
    let end = put_bytes(&mut text, at_lf, b"\n");
    if end <= text.len() {
        let _ = write_all(sys, Sink::Errors, &text[0..end]);
    }
}

// What went wrong at a line of a file, by the number of lines before it.
pub fn fail_at(sys: &System, file: &[u8], before: u64, what: &[u8]) {
    let mut text = message_buffer();
    let at_number = put_start(&mut text, file, b"line ");
    if before < u64::MAX {
        let at_words = put_nat(&mut text, at_number, before + 1, 1);
        let at_lf = put_bytes(&mut text, at_words, what);
        let end = put_bytes(&mut text, at_lf, b"\n");
        if end <= text.len() {
            let _ = write_all(sys, Sink::Errors, &text[0..end]);
        }
    }
}

// Of a log that could not be read to its end what was written looks like that of a shorter one, but for this.
pub fn say_short(sys: &System, outcome: Outcome, lines: u64) {
    if lines == 0 {
        return;
    }
    if let Err(failure) = outcome {
        if failure.cuts_short() {
            let _ = write_all(sys, Sink::Output, b"! cut short\n");
        }
    }
}

// A sentence where something went wrong; where nothing did, 0 to `told`, for whoever started the program: it ends with
// status 0 whatever it saw.
pub fn tell(sys: &System, told: Sink, file: &[u8], outcome: Outcome) {
    match outcome {
        Ok(()) => {
            let _ = write_all(sys, told, b"0");
        }
        Err(Failure::NotRead) => fail(sys, file, b"cannot be read to its end"),
        Err(Failure::LongLine(before)) => fail_at(sys, file, before, b" is longer than a mebibyte"),
        Err(Failure::NoRoom(before)) => fail_at(
            sys,
            file,
            before,
            b" has a text longer than its room",
        ),
        Err(Failure::NotWritten) => fail(sys, b"standard output", b"cannot be written"),
        Err(Failure::Closed) => {}
    }
}

// A number.
pub fn write_number(sys: &System, to: Sink, n: u64) {
    let mut text = [0u8; 20];
    let end = put_nat(&mut text, 0, n, 1);
    if end <= text.len() {
        let _ = write_all(sys, to, &text[0..end]);
    }
}

// Writes a text that ends there to standard output; where it cannot be written a sentence says so.
pub fn write_block(sys: &System, text: &mut [u8], end: usize) -> bool {
    if text.len() < end {
        let _ = write_all(
            sys,
            Sink::Errors,
            b"tokelivo: a block of the sheet has no room\n",
        );
        return false;
    }
    let outcome = write_text(sys, Sink::Output, &mut text[0..end]);
    if outcome.is_err() {
        tell(sys, Sink::Nowhere, b"standard output", outcome);
        return false;
    }
    true
}
