// Writing a text.
ghost use Rattle.std.specs.Prelude.{◌≤◌, length};
ghost use Rattle.files.specs.Call.{NoMoreThan};
ghost use Rattle.files.specs.Output.{WrittenOf};

use crate::call::{CallError, did_by};
use crate::system::{Sink, System};

// The reader of the pipe is gone; or a write failed.
#[derive(Clone, Copy, PartialEq, Eq)]
pub enum WriteError {
    Closed,
    Failed,
}

// One call, of the text from a place on, made again where a signal interrupted it.
fn write_some(sys: &System, to: Sink, text: &[u8], at: usize) -> Result<Option<usize>, WriteError>
    requires { at ≤ length text.now }
    ensures { NoMoreThan at text.now result }
{
    for _ in 0..u64::MAX {
        let got = sys.write(to, &text[at..]);
        match did_by(got) {
            Ok(some) => return Ok(some),
            Err(CallError::Again) => {}
            Err(CallError::Closed) => return Err(WriteError::Closed),
            Err(CallError::Failed) => return Err(WriteError::Failed),
        }
    }
    Err(WriteError::Failed)
}

// Writes all of a text, or stops where a call fails, or takes no byte.
pub fn write_all(sys: &System, to: Sink, text: &[u8]) -> Result<(), WriteError>
    ensures { WrittenOf text.now result }
{
    let mut at = 0;
    while at < text.len() {
        match write_some(sys, to, text, at)? {
            None => return Err(WriteError::Failed),
            Some(n) => at += n,
        }
    }
    Ok(())
}
