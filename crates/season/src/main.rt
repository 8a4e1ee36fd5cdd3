// The program `season`: a block for each log that its words name, and one for all of them.
#![tactic(auto)]

use files::system::{Sink, System};
use seasons::run_season;

fn main(rt: HostRuntime) {
    run_season(&System::new(rt), 1, Sink::Nowhere);
}
