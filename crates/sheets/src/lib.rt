// A log of any length taken into a report through a window of fixed size: it is read, cut behind the last line that is
// whole, and these lines are taken; the rest waits for the next read.
#![tactic(auto)]

ghost use Rattle.std.specs.Prelude.{◌≡◌, false};
ghost use Rattle.reported.specs.Reported.{so_far_in, nothing_yet};
ghost use Rattle.sheets.specs.Sheets.{has_room_of, turn_in, stopped, last_turn, full_turn, turned, window_after, Goes};
ghost use Rattle.files.specs.Input.{Within};

use files::input::{Filled, NotRead, read_on};
use files::outcome::{Failure, Outcome};
use files::system::{Source, System};
use reported::{Sofar, report_on};
use window::{keep_rest, piece_end};

// What goes from read to read: the report, how many bytes wait at the window's front, and how it ended, if no read is
// to follow.
#[derive(Clone, Copy)]
struct Turn {
    sofar: Sofar,
    fill: usize,
    ended: Option<Outcome>,
}

// The report of the lines that were taken, and how it ended. It is no Result: what the lines came to is promised after
// a failure too.
#[derive(Clone, Copy)]
pub struct FileReport {
    pub sofar: Sofar,
    pub outcome: Outcome,
}

// The end of these lines stands in 64 bits.
fn has_room(sofar: Sofar, lines: &[u8]) -> bool
    ensures { result ≡ has_room_of (so_far_in sofar) lines.now }
{
    lines.len() as u64 <= u64::MAX - sofar.place
}

fn stop(sofar: Sofar, outcome: Outcome) -> Turn
    ensures { turn_in result ≡ stopped (so_far_in sofar) outcome }
{
    Turn {
        sofar,
        fill: 0,
        ended: Some(outcome),
    }
}

// The last piece.
fn finish(sofar: Sofar, lines: &[u8]) -> Turn
    ensures { turn_in result ≡ last_turn (so_far_in sofar) lines.now }
{
    if !has_room(sofar, lines) {
        return stop(sofar, Err(Failure::NotRead));
    }
    let taken = report_on(sofar, lines);
    stop(taken, Ok(()))
}

// A full window: its whole lines are taken, and the rest goes to its front.
fn drain(sofar: Sofar, win: &mut [u8]) -> Turn
    ensures result_value { turn_in result ≡ full_turn (so_far_in sofar) win.old }
    ensures win_after { win.new ≡ window_after result.ended win.old }
{
    let whole = piece_end(win, false);
    if whole == 0 {
        return stop(sofar, Err(Failure::LongLine(sofar.report.lines)));
    }
    if !has_room(sofar, &win[0..whole]) {
        return stop(sofar, Err(Failure::NotRead));
    }
    let taken = report_on(sofar, &win[0..whole]);
    let fill = keep_rest(win, whole);
    Turn {
        sofar: taken,
        fill,
        ended: None,
    }
}

// By how far the window was filled: what can be taken of it is.
fn one_turn(filled: Result<Filled, NotRead>, sofar: Sofar, win: &mut [u8]) -> Turn
    requires { Within filled win.old }
    ensures result_value { turn_in result ≡ turned filled (so_far_in sofar) win.old }
    ensures win_after { win.new ≡ window_after result.ended win.old }
{
    match filled {
        Ok(Filled::Ended(n)) => finish(sofar, &win[0..n]),
        Ok(Filled::Full) => drain(sofar, win),
        Err(_) => stop(sofar, Err(Failure::NotRead)),
    }
}

// Reads a log into a report, a window at a time.
pub fn report_file(sys: &System, from: &Source, win: &mut [u8]) -> FileReport
    ensures { Goes nothing_yet (so_far_in result.sofar) false }
{
    let mut sofar = Sofar::new();
    let mut fill = 0;
    for _ in 0..u64::MAX {
        let filled = read_on(sys, from, win, fill);
        let t = one_turn(filled, sofar, win);
        sofar = t.sofar;
        fill = t.fill;
        if let Some(outcome) = t.ended {
            return FileReport { sofar, outcome };
        }
    }
    FileReport {
        sofar,
        outcome: Err(Failure::NotRead),
    }
}
