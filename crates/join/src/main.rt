// The program `join`: the totals of the sheets that its words name, joined.
#![tactic(auto)]

use files::system::{Sink, System};
use joins::run_join;

fn main(rt: HostRuntime) {
    run_join(&System::new(rt), 1, Sink::Nowhere);
}
