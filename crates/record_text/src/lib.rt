// The fields of a record as text, one form for each kind.
#![tactic(auto)]

pub mod record;
