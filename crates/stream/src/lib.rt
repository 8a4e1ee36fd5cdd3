// A log of any length through a window of fixed size: it is read, cut behind the last line that is whole, and written;
// the rest waits for the next read.
#![tactic(auto)]

ghost use Rattle.std.specs.Prelude.{◌≡◌, false, Some, is_none};
ghost use Rattle.products.specs.Feed.{at_first_of};
ghost use Rattle.stream.specs.Stream.{Streamed, Goes, Drains, Finished, Turned};
ghost use Rattle.files.specs.Input.{Within};

use files::input::{Filled, NotRead, read_on};
use files::outcome::{Failure, Outcome, write_text};
use files::system::{Sink, Source, System};
use products::{Carried, Product, new, put_closing, put_lines};
use window::{keep_rest, piece_end};

// What is carried on, how many bytes were written, and what went wrong. It is no `Result`, since what is carried is
// needed after a failure too.
#[derive(Clone, Copy)]
struct Went {
    carried: Carried,
    taken: usize,
    outcome: Outcome,
}

// What goes from read to read: what is carried, how many bytes wait at the window's front, and how it ended, if no read
// is to follow.
#[derive(Clone, Copy)]
struct Turn {
    carried: Carried,
    fill: usize,
    ended: Option<Outcome>,
}

// What was carried at last, and how it ended. It is no `Result`, since what was carried is needed after a failure too.
#[derive(Clone, Copy)]
pub struct Ended {
    pub carried: Carried,
    pub outcome: Outcome,
}

// Writes some lines, as many at a time as have room.
fn write_lines(
    sys: &System,
    product: Product,
    c: Carried,
    lines: &[u8],
    names: &[u8],
    to: Sink,
    out: &mut [u8],
) -> Went
    ensures { Streamed c lines.now result }
{
    let mut carried = c;
    let mut from = 0;
    // A `while`, since it steps by what a call takes.
    while from < lines.len() {
        let fed = put_lines(product, carried, &lines[from..], names, out);
        let taken = fed.taken;
        let end = fed.end;
        if taken == 0 {
            return Went {
                carried,
                taken: from,
                outcome: Err(Failure::NoRoom(carried.at.number)),
            };
        }
        let outcome = write_text(sys, to, &mut out[0..end]);
        if outcome.is_err() {
            return Went {
                carried,
                taken: from,
                outcome,
            };
        }
        carried = fed.carried;
        from = from + taken;
    }
    Went {
        carried,
        taken: from,
        outcome: Ok(()),
    }
}

// What closes the text.
fn write_closing(sys: &System, product: Product, c: Carried, to: Sink, out: &mut [u8]) -> Outcome {
    let end = put_closing(out, 0, product, c);
    if out.len() < end {
        return Err(Failure::NoRoom(c.at.number));
    }
    write_text(sys, to, &mut out[0..end])
}

// The last piece, and what closes the text.
fn finish(
    sys: &System,
    product: Product,
    c: Carried,
    lines: &[u8],
    names: &[u8],
    to: Sink,
    out: &mut [u8],
) -> Turn
    ensures { Goes c result.carried (is_none result.ended) × Finished c lines.now result }
{
    let went = write_lines(sys, product, c, lines, names, to, out);
    let carried = went.carried;
    let outcome = went.outcome;
    if outcome.is_err() {
        return stop(carried, outcome);
    }
    let closed = write_closing(sys, product, carried, to, out);
    stop(carried, closed)
}

fn stop(carried: Carried, outcome: Outcome) -> Turn
    ensures { result ≡ record { carried = carried; fill = 0; ended = Some outcome } }
{
    Turn {
        carried,
        fill: 0,
        ended: Some(outcome),
    }
}

// A full window: its whole lines are written, and the rest goes to its front.
fn drain(
    sys: &System,
    product: Product,
    c: Carried,
    win: &mut [u8],
    names: &[u8],
    to: Sink,
    out: &mut [u8],
) -> Turn
    ensures { Drains c win.old win.new result }
{
    let whole = piece_end(win, false);
    if whole == 0 {
        return stop(c, Err(Failure::LongLine(c.at.number)));
    }
    let went = write_lines(sys, product, c, &win[0..whole], names, to, out);
    let carried = went.carried;
    let outcome = went.outcome;
    if outcome.is_err() {
        return stop(carried, outcome);
    }
    let fill = keep_rest(win, whole);
    Turn {
        carried,
        fill,
        ended: None,
    }
}

// By how far the window was filled: what can be written of it is.
fn one_turn(
    sys: &System,
    filled: Result<Filled, NotRead>,
    product: Product,
    carried: Carried,
    win: &mut [u8],
    names: &[u8],
    to: Sink,
    out: &mut [u8],
) -> Turn
    requires { Within filled win.old }
    ensures { Turned filled carried win.old win.new result }
{
    match filled {
        Ok(Filled::Ended(n)) => finish(sys, product, carried, &win[0..n], names, to, out),
        Ok(Filled::Full) => drain(sys, product, carried, win, names, to, out),
        Err(_) => stop(carried, Err(Failure::NotRead)),
    }
}

// Reads a log and writes what is asked of it, a window at a time.
pub fn run(
    sys: &System,
    product: Product,
    from: &Source,
    win: &mut [u8],
    names: &[u8],
    to: Sink,
    out: &mut [u8],
) -> Ended
    ensures { Goes at_first_of result.carried false }
{
    let mut carried = new();
    let mut fill = 0;
    for _ in 0..u64::MAX {
        let filled = read_on(sys, from, win, fill);
        let t = one_turn(sys, filled, product, carried, win, names, to, out);
        carried = t.carried;
        fill = t.fill;
        if let Some(outcome) = t.ended {
            return Ended { carried, outcome };
        }
    }
    Ended {
        carried,
        outcome: Err(Failure::NotRead),
    }
}
