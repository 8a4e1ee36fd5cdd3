// The program `positions`: the finer position of each accepted fix of the log that its word names, or of that of
// standard input.
#![tactic(auto)]

use files::system::{Sink, System};
use listings::run_positions;

fn main(rt: HostRuntime) {
    run_positions(&System::new(rt), 1, Sink::Nowhere);
}
