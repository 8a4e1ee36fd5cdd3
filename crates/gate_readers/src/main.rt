// The readers of single lines, called by themselves: a first byte that is not theirs, the values of extensions, and
// satellites. What this writes is held to ../stdout.
#![tactic(auto)]

mod foreign;
mod letters;
mod sets;
mod values;

fn main(rt: HostRuntime) {
    foreign::first_bytes(rt);
    letters::first_bytes(rt);
    values::values(rt);
    sets::sets(rt);
}
