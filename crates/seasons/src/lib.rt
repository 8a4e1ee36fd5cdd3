// A season: one log after the other, each with its block, and at last the block of all.
#![tactic(auto)]

ghost use Rattle.std.specs.Prelude.{◌≡◌, length};

use files::input::open;
use files::output::write_all;
use files::say::{fail, tell, write_block};
use files::system::{Sink, System, buffer};
use files::terminal::make_visible;
use print::number::put_nat;
use put::put_bytes;
use report::Report;
use sheet_text::{put_all, put_log};
use sheets::report_file;
use total::Total;

// The total so far; whether each log went into it; whether the sheet can still be written.
#[derive(Clone, Copy)]
struct Season {
    total: Total,
    whole: bool,
    writable: bool,
}

// A line is at most this long. The rooms here are fixed, since there is no heap.
fn window() -> [u8; 1048576]
    ensures { 1048576 ≡ length result }
{
    [0; 1048576]
}

// The log's number and its file, for whoever watches at a terminal.
fn say_log(sys: &System, number: u64, file: &[u8]) {
    if !sys.is_terminal(Sink::Errors) {
        return;
    }
    let mut text = buffer();
    let at_number = put_bytes(&mut text, 0, b"log ");
    let at_colon = put_nat(&mut text, at_number, number, 1);
    let at_file = put_bytes(&mut text, at_colon, b": ");
    let at_end = put_bytes(&mut text, at_file, file);
    make_visible(&mut text);
    let end = put_bytes(&mut text, at_end, b"\n");
    if end <= text.len() {
        let _ = write_all(sys, Sink::Errors, &text[0..end]);
    }
}

// After a log that was read to its end: its block is written, and the total has it.
fn after_report(sys: &System, before: Season, number: u64, report: Report) -> Season {
    let total = before.total;
    let mut out = buffer();
    let end = put_log(&mut out, 0, number, report);
    if !write_block(sys, &mut out, end) {
        return Season {
            total,
            whole: false,
            writable: false,
        };
    }
    if let Ok(sum) = total.add(report) {
        return Season {
            total: sum,
            whole: before.whole,
            writable: true,
        };
    }
    let _ = write_all(
        sys,
        Sink::Errors,
        b"tokelivo: the counts of all logs pass 64 bits\n",
    );
    Season {
        total,
        whole: false,
        writable: true,
    }
}

// After a log that has no report: a sentence was written, and there will be no block of all.
fn without(before: Season) -> Season {
    let total = before.total;
    Season {
        total,
        whole: false,
        writable: before.writable,
    }
}

// After the log of a file.
fn after_file(sys: &System, before: Season, number: u64, file: &[u8], win: &mut [u8]) -> Season {
    say_log(sys, number, file);
    let Some(from) = open(sys, file) else {
        fail(sys, file, b"cannot be opened");
        return without(before);
    };
    let read = report_file(sys, &from, win);
    let sofar = read.sofar;
    let outcome = read.outcome;
    if outcome.is_err() {
        tell(sys, Sink::Nowhere, file, outcome);
        sys.close(from);
        return without(before);
    }
    sys.close(from);
    let report = sofar.report;
    after_report(sys, before, number, report)
}

// After the log that the argument i names.
fn after_argument(sys: &System, before: Season, number: u64, i: usize, win: &mut [u8]) -> Season {
    let mut file = buffer();
    let Ok(n) = sys.arg(i, &mut file) else {
        fail(sys, b"a file's name", b"cannot be taken");
        return without(before);
    };
    after_file(sys, before, number, &file[0..n], win)
}

// The block of all logs, and where nothing went wrong 0 on the descriptor `told`.
fn close_sheet(sys: &System, season: Season, told: Sink) {
    if !season.whole {
        return;
    }
    let total = season.total;
    let mut out = buffer();
    let end = put_all(&mut out, 0, total);
    if write_block(sys, &mut out, end) {
        let _ = write_all(sys, told, b"0");
    }
}

// After the logs that the words from `first` up to `words` name, in order; no further once the sheet cannot be written.
fn after_words(sys: &System, first: usize, words: usize, win: &mut [u8]) -> Season {
    let mut season = Season {
        total: Total::new(),
        whole: true,
        writable: true,
    };
    let mut number: u64 = 1;
    for i in first..words {
        if number == u64::MAX {
            return without(season);
        }
        season = after_argument(sys, season, number, i, win);
        if !season.writable {
            return season;
        }
        number += 1;
    }
    season
}

// The sheet of the files that the program's words name, from the one at `first` on. Where one cannot be read there is
// no block of all.
pub fn run_season(sys: &System, first: usize, told: Sink) {
    let words = sys.arg_count();
    let mut win = window();
    let season = after_words(sys, first, words, &mut win);
    close_sheet(sys, season, told);
}
