// Totals of sheets joined in order, file by file, and at last the block of all.
#![tactic(auto)]

ghost use Rattle.std.specs.Prelude.{◌≡◌, length};
ghost use Rattle.total.specs.Total.{total_in, join_res};
ghost use Rattle.joins.specs.Halves.{halves_in, not_whole, joined_on};

use files::input::open;
use files::output::write_all;
use files::say::{fail, fail_at, refuse, write_block};
use files::system::{Sink, System, buffer};
use sheet_file::{NoTotal, read_file};
use sheet_text::put_all;
use total::Total;

// The total so far, and whether every sheet went into it.
#[derive(Clone, Copy)]
struct Halves {
    total: Total,
    whole: bool,
}

// Lines go by through this; a block is far shorter. The rooms here are fixed, since there is no heap.
fn window() -> [u8; 1048576]
    ensures { 1048576 ≡ length result }
{
    [0; 1048576]
}

// What is wrong with the sheet at a line.
fn say_line(sys: &System, file: &[u8], line: u64, what: &[u8]) {
    if 0 < line {
        fail_at(sys, file, line - 1, what);
    }
}

// After a sheet that did not go in: a sentence was written, and there will be no block.
fn without(before: Halves) -> Halves
    ensures { halves_in result ≡ not_whole (halves_in before) }
{
    Halves {
        total: before.total,
        whole: false,
    }
}

// After the total of one sheet more, whose logs come behind those before.
fn after_total(sys: &System, before: Halves, file: &[u8], next: Total) -> Halves
    ensures { halves_in result ≡ joined_on (halves_in before) (join_res (total_in before.total) (total_in next)) }
{
    match before.total.join(next) {
        Ok(total) => Halves {
            total,
            whole: before.whole,
        },
        Err(_) => {
            refuse(
                sys,
                file,
                b"21, with it a count or a log number passes 64 bits",
            );
            without(before)
        }
    }
}

// After the sheet of a file.
fn after_file(sys: &System, before: Halves, file: &[u8], win: &mut [u8]) -> Halves {
    let Some(from) = open(sys, file) else {
        fail(sys, file, b"cannot be opened");
        return without(before);
    };
    match read_file(sys, &from, win) {
        Ok(total) => {
            sys.close(from);
            after_total(sys, before, file, total)
        }
        Err(NoTotal::Wrong(line)) => {
            sys.close(from);
            say_line(
                sys,
                file,
                line,
                b" is not as `season` writes its last block",
            );
            without(before)
        }
        Err(NoTotal::TooLong(line)) => {
            sys.close(from);
            say_line(
                sys,
                file,
                line,
                b" begins a text longer than a mebibyte, which no block is",
            );
            without(before)
        }
        Err(NoTotal::NotRead) => {
            fail(sys, file, b"cannot be read to its end");
            sys.close(from);
            without(before)
        }
    }
}

// After the sheet that the argument i names.
fn after_argument(sys: &System, before: Halves, i: usize, win: &mut [u8]) -> Halves {
    let mut file = buffer();
    let Ok(n) = sys.arg(i, &mut file) else {
        fail(sys, b"a file's name", b"cannot be taken");
        return without(before);
    };
    after_file(sys, before, &file[0..n], win)
}

// After the sheets that the words from `first` up to `words` name, in order.
fn after_words(sys: &System, first: usize, words: usize, win: &mut [u8]) -> Halves {
    let mut halves = Halves {
        total: Total::new(),
        whole: true,
    };
    for i in first..words {
        halves = after_argument(sys, halves, i, win);
    }
    halves
}

// The joined block of the sheets that the program's words name, from the one at `first` on, and where nothing went
// wrong 0 on the descriptor `told`. Where a sheet is none there is no block.
pub fn run_join(sys: &System, first: usize, told: Sink) {
    let words = sys.arg_count();
    let mut win = window();
    let halves = after_words(sys, first, words, &mut win);
    if !halves.whole {
        return;
    }
    let mut out = buffer();
    let end = put_all(&mut out, 0, halves.total);
    if write_block(sys, &mut out, end) {
        let _ = write_all(sys, told, b"0");
    }
}
