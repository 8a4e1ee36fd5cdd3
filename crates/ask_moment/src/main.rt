// The program `ask_moment`: the fixes at the moments that its words ask for, in the log that the first of them names.
#![tactic(auto)]

use files::system::{Sink, System};
use moments::run_moment;

fn main(rt: HostRuntime) {
    run_moment(&System::new(rt), 1, Sink::Nowhere);
}
