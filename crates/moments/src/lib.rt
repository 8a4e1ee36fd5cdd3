// The moments of a flight that are asked for: a log of at most 4 MiB is read, and the answers to all times are written.
#![tactic(auto)]

ghost use Rattle.std.specs.Prelude.{◌≡◌, ◌+◌, ◌≤◌, length};
ghost use Rattle.text.specs.Word.{largest};
ghost use Rattle.put.specs.Put.{Wrote};
ghost use Rattle.files.specs.Input.{Within};
ghost use Rattle.moments.specs.Answers.{was_read_of, answers_of};

use files::input::{Filled, NotRead, is_dash, open, read_on};
use files::outcome::{Failure, write_text};
use files::output::write_all;
use files::say::{fail, refuse, tell};
use files::system::{Sink, Source, System, buffer};
use moment_text::{is_asked, put_moments};
use put::put_bytes;

// A log of at most 4 MiB, and one byte more, by which a longer one shows. The rooms here are fixed, since there is no
// heap.
fn log_buffer() -> [u8; 4194305]
    ensures { 4194305 ≡ length result }
{
    [0; 4194305]
}

// 4,096 times of six digits.
fn time_buffer() -> [u8; 24576]
    ensures { 24576 ≡ length result }
{
    [0; 24576]
}

// Room for the answers to so many times.
fn text_buffer() -> [u8; 262144]
    ensures { 262144 ≡ length result }
{
    [0; 262144]
}

// The time that argument i is, behind those before it; where it is none a sentence says so.
fn read_time(sys: &System, i: usize, times: &mut [u8], at: usize) -> bool {
    let mut word = buffer();
    let Ok(n) = sys.arg(i, &mut word) else {
        refuse(sys, b"a word", b"not a time of six digits, as 101530");
        return false;
    };
    if !is_asked(&word[0..n]) {
        refuse(sys, &word[0..n], b"not a time of six digits, as 101530");
        return false;
    }
    put_bytes(times, at, &word[0..n]);
    true
}

// The times that so many arguments are, up to the first that is none.
fn read_times(sys: &System, first: usize, count: usize, times: &mut [u8]) -> bool
    requires { (first + count ≤ largest) × (count ≤ 4096) }
{
    for i in 0..count {
        if !read_time(sys, first + i, times, 6 * i) {
            return false;
        }
    }
    true
}

// The answers of a log that was read to its end; of any other there are none.
fn put_answers(filled: Result<Filled, NotRead>, log: &[u8], times: &[u8], text: &mut [u8]) -> usize
    requires { Within filled log.now }
    ensures { Wrote text.old 0 (answers_of filled log.now times.now)
        text.new result }
{
    match filled {
        Ok(Filled::Ended(n)) => put_moments(text, 0, &log[0..n], times),
        Ok(Filled::Full) | Err(_) => 0,
    }
}

// The log was read to its end; where it was not, a sentence says why it has no answers.
fn was_read(sys: &System, filled: Result<Filled, NotRead>, file: &[u8]) -> bool
    ensures { result ≡ was_read_of filled }
{
    match filled {
        Ok(Filled::Ended(_)) => true,
        Ok(Filled::Full) => {
            refuse(
                sys,
                file,
                b"longer than 4 MiB, the most that is held to go to a moment",
            );
            false
        }
        Err(_) => {
            tell(sys, Sink::Nowhere, file, Err(Failure::NotRead));
            false // an error is not the log's end
        }
    }
}

fn answer_on(sys: &System, from: &Source, file: &[u8], times: &[u8], told: Sink) {
    let mut log = log_buffer();
    let mut text = text_buffer();
    let filled = read_on(sys, from, &mut log, 0);
    if !was_read(sys, filled, file) {
        return;
    }
    let end = put_answers(filled, &log, times, &mut text);
    if text.len() < end {
        refuse(sys, file, b"the answers have no room");
        return;
    }
    tell(
        sys,
        told,
        file,
        write_text(sys, Sink::Output, &mut text[0..end]),
    );
}

fn answer_file(sys: &System, file: &[u8], times: &[u8], told: Sink) {
    let Some(from) = open(sys, file) else {
        fail(sys, file, b"cannot be opened");
        return;
    };
    if is_dash(file) {
        answer_on(sys, &from, b"standard input", times, told);
        return;
    }
    answer_on(sys, &from, file, times, told);
}

// The answers to the times that the program's words ask for, in the log of the file that the word at `at` names. All
// words are looked at before anything is read or written.
pub fn run_moment(sys: &System, at: usize, told: Sink) {
    let words = sys.arg_count();
    if words <= at {
        let _ = write_all(
            sys,
            Sink::Errors,
            b"tokelivo: moment takes a file and times of six digits, as 101530\n",
        );
        return;
    }
    if words - at < 2 {
        let _ = write_all(
            sys,
            Sink::Errors,
            b"tokelivo: no time is asked for; one is six digits, as 101530\n",
        );
        return;
    }
    let count = words - at - 1;
    if count > 4096 {
        let _ = write_all(sys, Sink::Errors, b"tokelivo: more than 4096 times\n");
        return;
    }
    let mut times = time_buffer();
    if !read_times(sys, at + 1, count, &mut times) {
        return;
    }
    let mut file = buffer();
    let Ok(n) = sys.arg(at, &mut file) else {
        fail(sys, b"the file's name", b"cannot be taken");
        return;
    };
    answer_file(sys, &file[0..n], &times[0..6 * count], told);
}
