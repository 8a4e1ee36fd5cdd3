// The program `task_sheet`: the sheet of the task that a log declares first, its points without a name labelled by the
// lines of a second file.
#![tactic(auto)]

use files::system::{Sink, System};
use tasks::run_task;

fn main(rt: HostRuntime) {
    run_task(&System::new(rt), 1, Sink::Nowhere);
}
