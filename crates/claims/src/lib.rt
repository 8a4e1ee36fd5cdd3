// A log of any length judged as a record claim through a window of fixed size: it is read, cut behind the last line
// that is whole, and these lines are taken; the rest waits for the next read. A line that fills the window is too long
// whatever follows, and so it needs no larger one.
#![tactic(auto)]

ghost use Rattle.std.specs.Prelude.{◌≡◌, ◌≤◌, length};
ghost use Rattle.files.specs.Input.{Within};
ghost use Rattle.claims.specs.Claims.{has_room_of, stopped, leaving, last_turn, full_turn, turned};
ghost use Rattle.claims.specs.Claims.{window_after, Judged};

use claim::verdict::Verdict;
use claim::{Sofar, claim_on};
use claim_text::put_verdict;
use files::input::{Filled, NotRead, is_dash, open, read_on};
use files::outcome::{Failure, Outcome};
use files::output::write_all;
use files::say::{fail, tell, write_block};
use files::system::{Sink, Source, System, buffer};
use window::{keep_rest, piece_end};

// What goes from read to read: what the lines so far come to, how many bytes wait at the window's front, and how it
// ended, if no read is to follow.
#[derive(Clone, Copy)]
struct Turn {
    sofar: Sofar,
    fill: usize,
    ended: Option<Outcome>,
}

// What the lines that were taken come to, and how it ended. It is no Result: what they come to is promised after a
// failure too.
#[derive(Clone, Copy)]
struct FileClaim {
    sofar: Sofar,
    outcome: Outcome,
}

// The number of each of these lines stands in 64 bits.
fn has_room(sofar: Sofar, lines: &[u8]) -> bool
    ensures { result ≡ has_room_of sofar lines.now }
{
    lines.len() as u64 <= u64::MAX - sofar.lines
}

fn stop(sofar: Sofar, outcome: Outcome) -> Turn
    ensures { result ≡ stopped sofar outcome }
{
    Turn {
        sofar,
        fill: 0,
        ended: Some(outcome),
    }
}

// How many bytes of a full window are taken: its whole lines, and where it has none all of them.
fn leaving(win: &[u8]) -> usize
    ensures { result ≡ leaving win.now }
{
    let whole = piece_end(win, false);
    if whole == 0 {
        return win.len();
    }
    whole
}

// The last piece.
fn finish(sofar: Sofar, lines: &[u8]) -> Turn
    ensures { result ≡ last_turn sofar lines.now }
{
    if !has_room(sofar, lines) {
        return stop(sofar, Err(Failure::NotRead));
    }
    let taken = claim_on(sofar, lines);
    stop(taken, Ok(()))
}

// A full window: what leaves it is taken, and the rest goes to its front.
fn drain(sofar: Sofar, win: &mut [u8]) -> Turn
    ensures value { result ≡ full_turn sofar win.old }
    ensures win_after { win.new ≡ window_after result.ended win.old }
{
    let n = leaving(win);
    if !has_room(sofar, &win[0..n]) {
        return stop(sofar, Err(Failure::NotRead));
    }
    let taken = claim_on(sofar, &win[0..n]);
    let fill = keep_rest(win, n);
    Turn {
        sofar: taken,
        fill,
        ended: None,
    }
}

// By how far the window was filled: what can be taken of it is.
fn one_turn(filled: Result<Filled, NotRead>, sofar: Sofar, win: &mut [u8]) -> Turn
    requires { Within filled win.old }
    ensures value { result ≡ turned filled sofar win.old }
    ensures win_after { win.new ≡ window_after result.ended win.old }
{
    match filled {
        Ok(Filled::Ended(n)) => finish(sofar, &win[0..n]),
        Ok(Filled::Full) => drain(sofar, win),
        Err(_) => stop(sofar, Err(Failure::NotRead)),
    }
}

// Reads a log to its end, a window at a time. A line of 78 bytes that the window does not end is too long.
fn claim_file(sys: &System, from: &Source, win: &mut [u8]) -> FileClaim
    requires { 78 ≤ length win.old }
    ensures { Judged result.sofar }
{
    let mut sofar = Sofar::new();
    let mut fill = 0;
    for _ in 0..u64::MAX {
        let filled = read_on(sys, from, win, fill);
        let t = one_turn(filled, sofar, win);
        sofar = t.sofar;
        fill = t.fill;
        if let Some(outcome) = t.ended {
            return FileClaim { sofar, outcome };
        }
    }
    FileClaim {
        sofar,
        outcome: Err(Failure::NotRead),
    }
}

// The room of a window: it is fixed, since the project has no heap.
fn window() -> [u8; 1048576]
    ensures { 1048576 ≡ length result }
{
    [0; 1048576]
}

// The verdict's line; and where it was written, 0 for yes and 1 for no on the descriptor `told`, if there is one.
fn say(sys: &System, verdict: Verdict, told: Sink) {
    let mut out = buffer();
    let end = put_verdict(&mut out, 0, verdict);
    if !write_block(sys, &mut out, end) {
        return;
    }
    if verdict.is_yes() {
        let _ = write_all(sys, told, b"0");
        return;
    }
    let _ = write_all(sys, told, b"1");
}

// A log that could not be read to its end has no verdict, whatever stood in front.
fn claim_input(sys: &System, from: &Source, file: &[u8], told: Sink) {
    let mut win = window();
    let read = claim_file(sys, from, &mut win);
    let sofar = read.sofar;
    let outcome = read.outcome;
    if outcome.is_err() {
        tell(sys, Sink::Nowhere, file, outcome);
        return;
    }
    say(sys, sofar.at_end(), told);
}

fn claim_named(sys: &System, file: &[u8], told: Sink) {
    let Some(from) = open(sys, file) else {
        fail(sys, file, b"cannot be opened");
        return;
    };
    if is_dash(file) {
        claim_input(sys, &from, b"standard input", told);
        return;
    }
    claim_input(sys, &from, file, told);
}

// The verdict on the log that the argument `at` names; where there is none, on that of standard input.
pub fn run_claim(sys: &System, at: usize, told: Sink) {
    let words = sys.arg_count();
    if words <= at {
        claim_input(sys, &Source::Input, b"standard input", told);
        return;
    }
    if words - at > 1 {
        let _ = write_all(sys, Sink::Errors, b"tokelivo: claim takes one file\n");
        return;
    }
    let mut file = buffer();
    let Ok(n) = sys.arg(at, &mut file) else {
        fail(sys, b"the file's name", b"cannot be taken");
        return;
    };
    claim_named(sys, &file[0..n], told);
}
