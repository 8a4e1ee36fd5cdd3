// The desk's program on a file that is not there: nothing that looks like a result, and no 0 to tell that nothing went
// wrong.
#![tactic(auto)]

use files::system::System;
use words::run_words;

fn main(rt: HostRuntime) {
    run_words(&System::new(rt));
}
