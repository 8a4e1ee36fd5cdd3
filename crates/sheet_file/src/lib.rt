// A sheet of any length read through a window of fixed size: the lines before its last block go by, and are counted.
#![tactic(auto)]

ghost use Rattle.std.specs.Prelude.{◌+◌, min, ◌≡◌};
ghost use Rattle.text.specs.Word.{largest};
ghost use Rattle.files.specs.Input.{Within};
ghost use Rattle.sheet_file.specs.File.{answer_in, turn_in, stopped, last_turn, full_turn, turned, window_after, Told};

use files::input::{Filled, NotRead, read_on};
use files::system::{Source, System};
use sheet_read::{count_ends, find_all, read_sheet};
use total::Total;
use window::{keep_rest, piece_end};

// Why a file has no total: that line is not one of a sheet; what begins at that line is longer than the window; the
// file could not be read to its end. Lines are counted from 1.
#[derive(Clone, Copy)]
pub enum NoTotal {
    Wrong(u64),
    TooLong(u64),
    NotRead,
}

// What goes from read to read: how many lines went by, how many bytes wait at the window's front, and the answer, if no
// read is to follow.
#[derive(Clone, Copy)]
struct Turn {
    before: u64,
    fill: usize,
    ended: Option<Result<Total, NoTotal>>,
}

// Lines counted on, as far as 64 bits hold them.
fn count_on(lines: u64, more: u64) -> u64
    ensures { result ≡ min (lines + more) largest }
{
    lines.saturating_add(more)
}

fn stop(answer: Result<Total, NoTotal>) -> Turn
    ensures { turn_in result ≡ stopped (answer_in answer) }
{
    Turn {
        before: 0,
        fill: 0,
        ended: Some(answer),
    }
}

// The last piece.
fn finish(before: u64, sheet: &[u8]) -> Turn
    ensures { turn_in result ≡ last_turn before sheet.now }
{
    match read_sheet(sheet) {
        Ok(total) => stop(Ok(total)),
        Err(wrong) => stop(Err(NoTotal::Wrong(count_on(before, wrong.line)))),
    }
}

// A full window: the lines before the last block go by, and the rest goes to its front.
fn pass(before: u64, win: &mut [u8]) -> Turn
    ensures result_value { turn_in result ≡ full_turn before win.old }
    ensures win_after { win.new ≡ window_after (turn_in result).ended win.old }
{
    let whole = piece_end(win, false);
    let gone = find_all(&win[0..whole]);
    if gone == 0 {
        return stop(Err(NoTotal::TooLong(count_on(before, 1))));
    }
    let lines = count_ends(&win[0..gone]);
    let fill = keep_rest(win, gone);
    Turn {
        before: count_on(before, lines),
        fill,
        ended: None,
    }
}

// By how far the window was filled.
fn one_turn(filled: Result<Filled, NotRead>, before: u64, win: &mut [u8]) -> Turn
    requires { Within filled win.old }
    ensures result_value { turn_in result ≡ turned filled before win.old }
    ensures win_after { win.new ≡ window_after (turn_in result).ended win.old }
{
    match filled {
        Ok(Filled::Ended(n)) => finish(before, &win[0..n]),
        Ok(Filled::Full) => pass(before, win),
        Err(_) => stop(Err(NoTotal::NotRead)),
    }
}

// Reads the total of a sheet, a window at a time.
pub fn read_file(sys: &System, from: &Source, win: &mut [u8]) -> Result<Total, NoTotal>
    ensures { Told (answer_in result) }
{
    let mut before: u64 = 0;
    let mut fill = 0;
    for _ in 0..u64::MAX {
        let filled = read_on(sys, from, win, fill);
        let t = one_turn(filled, before, win);
        before = t.before;
        fill = t.fill;
        if let Some(answer) = t.ended {
            return answer;
        }
    }
    Err(NoTotal::NotRead)
}
