// The program `watch`: a line wherever the running summit of a datum rises, in the log that its word names, or in that
// of standard input.
#![tactic(auto)]

use files::system::{Sink, System};
use watches::run_watch;

fn main(rt: HostRuntime) {
    run_watch(&System::new(rt), 1, Sink::Nowhere);
}
