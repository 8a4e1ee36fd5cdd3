// What every field and every record is printed with: numbers put into lent bytes, and a printer's answer.
#![tactic(auto)]

pub mod number;
pub mod printed;
