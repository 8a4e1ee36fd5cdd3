// The fields of the lines of a log from standard input, with the names that are given as arguments. This main reads,
// calls one proved function and writes what it answered, by `listings`.
//
// `stdin` beside src/ is a fixed sample of lines of every kind and at every edge, and `stdout` what the Rust of the
// team's copy wrote for it, in the words of this program: `oracle/vectors` made both, and the check holds this program
// to them with no Rust at hand. Lines on which the two differ (docs/DIFFERENCES.md) are left out, but for unreadable
// numbers, which the sample gives the paper's 3. By the book, the tables in force and lookup by name are not the Rust's
// and come from the oracle's glue.
#![tactic(auto)]

use files::system::System;
use listings::run_fields_of_input;

fn main(rt: HostRuntime) {
    run_fields_of_input(&System::new(rt));
}
