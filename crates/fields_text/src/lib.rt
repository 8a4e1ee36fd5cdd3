// What the reader sees in each line of a log, as text: its fields, the values looked up by name, and the record as it
// prints.
#![tactic(auto)]

pub mod line;
