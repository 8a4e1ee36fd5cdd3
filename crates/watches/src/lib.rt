// A log watched while its bytes come: what whole lines have come are written at once, before the next read; a last line
// that has no end yet waits for it, or for the end of the input.
#![tactic(auto)]

ghost use Rattle.std.specs.Prelude.{◌≡◌, false, ◌≤◌, length, take};
ghost use Rattle.files.specs.Input.{Behind};
ghost use Rattle.watch_text.specs.Feed.{view, at_first_of};
ghost use Rattle.watches.specs.Watching.{Written, Goes, Moves, Finished, Turned, stopped};

use files::input::{Came, NotRead, is_dash, open, read_more};
use files::outcome::{Failure, Outcome, write_text};
use files::output::write_all;
use files::say::{fail, say_short, tell};
use files::system::{Sink, Source, System, buffer};
use watch_text::{Watch, put_lines};
use window::{keep_rest, piece_end};

// What is carried on, how many bytes were written, and what went wrong. It is no `Result`, since what is carried is
// needed after a failure too.
#[derive(Clone, Copy)]
struct Went {
    watch: Watch,
    taken: usize,
    outcome: Outcome,
}

// What goes from read to read: what is carried, how many bytes wait at the window's front, and how it ended, if no read
// is to follow.
#[derive(Clone, Copy)]
struct Turn {
    watch: Watch,
    fill: usize,
    ended: Option<Outcome>,
}

// What was carried at last, and how it ended. It is no `Result`, since what was carried is needed after a failure too.
#[derive(Clone, Copy)]
struct Ended {
    watch: Watch,
    outcome: Outcome,
}

// Writes some lines, as many at a time as have room.
fn write_lines(sys: &System, w: Watch, lines: &[u8], to: Sink, out: &mut [u8]) -> Went
    ensures { Written w lines.now result }
{
    let mut watch = w;
    let mut from = 0;
    // A `while`, since it steps by what a call takes.
    while from < lines.len() {
        let put = put_lines(watch, &lines[from..], out);
        let taken = put.taken;
        let end = put.end;
        if taken == 0 {
            return Went {
                watch,
                taken: from,
                outcome: Err(Failure::NoRoom(watch.at.number)),
            };
        }
        let outcome = write_text(sys, to, &mut out[0..end]);
        if outcome.is_err() {
            return Went {
                watch,
                taken: from,
                outcome,
            };
        }
        watch = put.watch;
        from += taken;
    }
    Went {
        watch,
        taken: from,
        outcome: Ok(()),
    }
}

fn stop(watch: Watch, outcome: Outcome) -> Turn
    ensures { result ≡ stopped watch outcome }
{
    Turn {
        watch,
        fill: 0,
        ended: Some(outcome),
    }
}

// After the last read.
fn finish(sys: &System, w: Watch, lines: &[u8], to: Sink, out: &mut [u8]) -> Turn
    ensures { Finished w lines.now result }
{
    let went = write_lines(sys, w, lines, to, out);
    let watch = went.watch;
    let outcome = went.outcome;
    stop(watch, outcome)
}

// The first n bytes of the window: their whole lines are written, and the others go to its front.
fn move_on(sys: &System, w: Watch, win: &mut [u8], n: usize, to: Sink, out: &mut [u8]) -> Turn
    requires { n ≤ length win.old }
    ensures { Moves w win.old win.new (take n win.old) result }
{
    let whole = piece_end(&win[0..n], false);
    let went = write_lines(sys, w, &win[0..whole], to, out);
    let watch = went.watch;
    let outcome = went.outcome;
    if outcome.is_err() {
        return stop(watch, outcome);
    }
    let fill = keep_rest(&mut win[0..n], whole);
    Turn {
        watch,
        fill,
        ended: None,
    }
}

// By what came behind the first bytes of the window.
fn one_turn(
    sys: &System,
    came: Result<Came, NotRead>,
    w: Watch,
    win: &mut [u8],
    fill: usize,
    to: Sink,
    out: &mut [u8],
) -> Turn
    requires { Behind fill win.old came }
    ensures { Turned came w win.old fill win.new result }
{
    match came {
        Ok(Came::Bytes(n)) => move_on(sys, w, win, fill + n, to, out),
        Ok(Came::Ended) => finish(sys, w, &win[0..fill], to, out),
        Ok(Came::NoRoom) => stop(w, Err(Failure::LongLine(w.at.number))),
        Err(_) => stop(w, Err(Failure::NotRead)),
    }
}

// Reads a log as its bytes come, and writes where its summits rise.
fn run(sys: &System, from: &Source, win: &mut [u8], to: Sink, out: &mut [u8]) -> Ended
    ensures { Goes at_first_of (view result.watch) false }
{
    let mut watch = Watch::new();
    let mut fill = 0;
    for _ in 0..u64::MAX {
        let came = read_more(sys, from, win, fill);
        let t = one_turn(sys, came, watch, win, fill, to, out);
        watch = t.watch;
        fill = t.fill;
        if let Some(outcome) = t.ended {
            return Ended { watch, outcome };
        }
    }
    Ended {
        watch,
        outcome: Err(Failure::NotRead),
    }
}

// A line is at most this long: the room is fixed, since the project has no heap.
fn window() -> [u8; 1048576]
    ensures { 1048576 ≡ length result }
{
    [0; 1048576]
}

// Room for the text of many lines, fixed for the same reason.
fn text_buffer() -> [u8; 65536]
    ensures { 65536 ≡ length result }
{
    [0; 65536]
}

fn watch_on(sys: &System, from: &Source, file: &[u8], told: Sink) {
    let mut win = window();
    let mut out = text_buffer();
    let ended = run(sys, from, &mut win, Sink::Output, &mut out);
    let outcome = ended.outcome;
    say_short(sys, outcome, ended.watch.at.number);
    tell(sys, told, file, outcome);
}

fn watch_file(sys: &System, file: &[u8], told: Sink) {
    let Some(from) = open(sys, file) else {
        fail(sys, file, b"cannot be opened");
        return;
    };
    if is_dash(file) {
        watch_on(sys, &from, b"standard input", told);
        return;
    }
    watch_on(sys, &from, file, told);
}

// The log that the argument `at` names; where there is none, that of standard input.
pub fn run_watch(sys: &System, at: usize, told: Sink) {
    let words = sys.arg_count();
    if words <= at {
        watch_on(sys, &Source::Input, b"standard input", told);
        return;
    }
    if words - at > 1 {
        let _ = write_all(sys, Sink::Errors, b"tokelivo: watch takes one file\n");
        return;
    }
    let mut file = buffer();
    let Ok(n) = sys.arg(at, &mut file) else {
        fail(sys, b"the file's name", b"cannot be taken");
        return;
    };
    watch_file(sys, &file[0..n], told);
}
