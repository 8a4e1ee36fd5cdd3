// The listing of a file, the fields of its lines, or the finer positions of its fixes, as the desk's words ask for
// them.
#![tactic(auto)]

ghost use Rattle.std.specs.Prelude.{◌≡◌, length};

use files::input::{is_dash, open};
use files::output::write_all;
use files::say::{fail, say_short, tell};
use files::system::{Sink, Source, System, buffer};
use names::read_names;
use products::Product;
use stream::run;

// A line is at most this long. The rooms here are fixed, since there is no heap.
fn window() -> [u8; 1048576]
    ensures { 1048576 ≡ length result }
{
    [0; 1048576]
}

// Room for the text of such a line with the values of 4,096 names, and for many lines with fewer.
fn text_buffer() -> [u8; 1310720]
    ensures { 1310720 ≡ length result }
{
    [0; 1310720]
}

// 4,096 names of three bytes.
fn name_buffer() -> [u8; 12288]
    ensures { 12288 ≡ length result }
{
    [0; 12288]
}

fn run_on(sys: &System, product: Product, from: &Source, file: &[u8], names: &[u8], told: Sink) {
    let mut win = window();
    let mut out = text_buffer();
    let ended = run(sys, product, from, &mut win, names, Sink::Output, &mut out);
    let outcome = ended.outcome;
    say_short(sys, outcome, ended.carried.at.number);
    tell(sys, told, file, outcome);
}

fn run_file(sys: &System, product: Product, file: &[u8], names: &[u8], told: Sink) {
    let Some(from) = open(sys, file) else {
        fail(sys, file, b"cannot be opened");
        return;
    };
    if is_dash(file) {
        run_on(sys, product, &from, b"standard input", names, told);
        return;
    }
    run_on(sys, product, &from, file, names, told);
}

// The file is the argument `at`.
fn run_named(sys: &System, product: Product, at: usize, names: &[u8], told: Sink) {
    let mut file = buffer();
    let Ok(n) = sys.arg(at, &mut file) else {
        fail(sys, b"the file's name", b"cannot be taken");
        return;
    };
    run_file(sys, product, &file[0..n], names, told);
}

// The listing of the file that the argument `at` names.
pub fn run_list(sys: &System, at: usize, told: Sink) {
    let words = sys.arg_count();
    if at < words {
        if words - at > 1 {
            let _ = write_all(sys, Sink::Errors, b"tokelivo: list takes one file\n");
            return;
        }
    }
    run_named(sys, Product::Listing, at, b"", told);
}

// The fields of that file, with the names that follow it.
pub fn run_fields(sys: &System, at: usize, told: Sink) {
    let mut names = name_buffer();
    let words = sys.arg_count();
    if words <= at {
        run_named(sys, Product::Fields, at, b"", told);
        return;
    }
    let count = words - at - 1;
    if read_names(sys, at + 1, count, &mut names) {
        run_named(sys, Product::Fields, at, &names[0..3 * count], told);
    }
}

// The fields of standard input, with the program's words as names.
pub fn run_fields_of_input(sys: &System) {
    let mut names = name_buffer();
    let words = sys.arg_count();
    if words <= 1 {
        run_on(
            sys,
            Product::Fields,
            &Source::Input,
            b"standard input",
            b"",
            Sink::Nowhere,
        );
        return;
    }
    let count = words - 1;
    if read_names(sys, 1, count, &mut names) {
        run_on(
            sys,
            Product::Fields,
            &Source::Input,
            b"standard input",
            &names[0..3 * count],
            Sink::Nowhere,
        );
    }
}

// The finer positions of the fixes of that file; where no argument names one, of standard input.
pub fn run_positions(sys: &System, at: usize, told: Sink) {
    let words = sys.arg_count();
    if words <= at {
        run_on(
            sys,
            Product::Positions,
            &Source::Input,
            b"standard input",
            b"",
            told,
        );
        return;
    }
    if words - at > 1 {
        let _ = write_all(sys, Sink::Errors, b"tokelivo: positions takes one file\n");
        return;
    }
    run_named(sys, Product::Positions, at, b"", told);
}
