// The readings of document 01 of fields that are run and not proved, each with its answer number. What this writes is
// held to ../stdout.
#![tactic(auto)]

mod fields;
mod verdicts;

fn main(rt: HostRuntime) {
    fields::times(rt);
    fields::dates(rt);
    fields::coordinates(rt);
    fields::positions(rt);
    fields::made(rt);
    fields::extensions(rt);
    verdicts::days(rt);
    verdicts::limits(rt);
    verdicts::by_hand(rt);
}
