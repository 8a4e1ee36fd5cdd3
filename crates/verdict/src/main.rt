// The program `verdict`: the verdict on the log that its word names, or on that of standard input, as a record claim.
#![tactic(auto)]

use claims::run_claim;
use files::system::{Sink, System};

fn main(rt: HostRuntime) {
    run_claim(&System::new(rt), 1, Sink::Nowhere);
}
