// The fields of every record as text, one form for each kind of field, and values looked up by name.
#![tactic(auto)]

pub mod piece;
pub mod value;
