// The readings of document 01 of lines that are run and not proved, each with its answer number. What this writes is
// held to ../stdout.
#![tactic(auto)]

mod letters;
mod lines;

fn main(rt: HostRuntime) {
    lines::first(rt);
    lines::fixes(rt);
    lines::data(rt);
    lines::tables(rt);
    lines::tasks(rt);
    letters::stations(rt);
    letters::events(rt);
    letters::satellites(rt);
    letters::others(rt);
}
