// The paper's program: lists a log from standard input. This main reads, calls one proved function and writes what it
// answered, by `paper`.
#![tactic(auto)]

use files::say::tell;
use files::system::{Sink, Source, System};
use paper::list;

fn main(rt: HostRuntime) {
    let sys = System::new(rt);
    let outcome = list(&sys, &Source::Input, Sink::Output);
    tell(&sys, Sink::Nowhere, b"standard input", outcome);
}
