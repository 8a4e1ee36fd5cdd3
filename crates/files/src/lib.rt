// Reading and writing for the programs of the desk. An error is never taken for the end of the input, an interrupted
// call is made again, and a text that was not written whole is not taken for written.
#![tactic(auto)]

pub mod call;
mod descriptor;
pub mod input;
pub mod outcome;
pub mod output;
pub mod say;
pub mod system;
pub mod terminal;
