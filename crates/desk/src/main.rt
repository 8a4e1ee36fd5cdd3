// The desk's program: the listing of a log of any length (`list FILE`), the fields of its lines (`fields FILE
// NAME..`), or the sheet of a season (`season FILE..`). This main reads, calls one proved function and writes what it
// answered, by `words`.
//
// The gate runs it with names as arguments: each fix is asked for these in place of the I line's, and after the text
// stands the 0 that tells that nothing went wrong.
#![tactic(auto)]

use files::system::System;
use words::run_words;

fn main(rt: HostRuntime) {
    run_words(&System::new(rt));
}
