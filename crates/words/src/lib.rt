// The desk's program, by the words that it is started with.
#![tactic(auto)]

ghost use Rattle.std.specs.Prelude.{◌≤◌};

use block_read::starts_with;
use claims::run_claim;
use files::output::write_all;
use files::system::{Sink, System};
use joins::run_join;
use listings::{run_fields, run_list, run_positions};
use moments::run_moment;
use seasons::run_season;
use tasks::run_task;
use watches::run_watch;

// The word is that name.
fn is_word(word: &[u8], name: &[u8]) -> bool {
    if word.len() != name.len() {
        return false;
    }
    starts_with(word, name)
}

// A word of one digit names a descriptor; any other names none.
fn descriptor(word: [u8; 8], n: usize) -> Sink {
    if n != 1 {
        return Sink::Nowhere;
    }
    if word[0] < b'0' {
        return Sink::Nowhere;
    }
    if word[0] > b'9' {
        return Sink::Nowhere;
    }
    match word[0] - b'0' {
        1 => Sink::Output,
        2 => Sink::Errors,
        digit => Sink::Number(digit),
    }
}

// What is asked of one log, the argument `at`; false where the word is none of these.
fn run_on_one(sys: &System, word: &[u8], at: usize, told: Sink) -> bool {
    if is_word(word, b"list") {
        run_list(sys, at, told);
        return true;
    }
    if is_word(word, b"fields") {
        run_fields(sys, at, told);
        return true;
    }
    if is_word(word, b"positions") {
        run_positions(sys, at, told);
        return true;
    }
    if is_word(word, b"watch") {
        run_watch(sys, at, told);
        return true;
    }
    if is_word(word, b"moment") {
        run_moment(sys, at, told);
        return true;
    }
    if is_word(word, b"claim") {
        run_claim(sys, at, told);
        return true;
    }
    false
}

// What is asked of the files that the arguments from `at` on name.
fn run_on_many(sys: &System, word: &[u8], at: usize, told: Sink) -> bool {
    if is_word(word, b"season") {
        run_season(sys, at, told);
        return true;
    }
    if is_word(word, b"join") {
        run_join(sys, at, told);
        return true;
    }
    if is_word(word, b"task") {
        run_task(sys, at, told);
        return true;
    }
    false
}

// By the word at `at`. The rooms here are fixed, since there is no heap.
fn run_from(sys: &System, at: usize, told: Sink)
    requires { at ≤ 2 }
{
    let mut word = [0u8; 16];
    let n = sys.arg(at, &mut word).unwrap_or(0);
    if run_on_one(sys, &word[0..n], at + 1, told) {
        return;
    }
    if run_on_many(sys, &word[0..n], at + 1, told) {
        return;
    }
    let _ = write_all(
        sys,
        Sink::Errors,
        b"tokelivo: none of list, fields, positions, season, join, watch, moment, claim and task is asked for\n",
    );
}

// By the program's words: `list FILE`, `fields FILE NAME..`, `positions FILE`, `season FILE..`, `join SHEET..`,
// `watch FILE`, `moment FILE HHMMSS..`, `claim FILE` or `task FILE LABELS`. In front of them may stand a descriptor, as
// 3: where nothing went wrong, 0 is written there, and 1 where a claim's verdict is no.
pub fn run_words(sys: &System) {
    let mut word = [0u8; 8];
    let n = sys.arg(1, &mut word).unwrap_or(0);
    let told = descriptor(word, n);
    if let Sink::Nowhere = told {
        run_from(sys, 1, told);
        return;
    }
    run_from(sys, 2, told);
}
