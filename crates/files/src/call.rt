// What one call of `read` or of `write` did.
ghost use Rattle.std.specs.Prelude.{◌≡◌};
ghost use Rattle.files.specs.Call.{did_of, call_error_of};

use std::io;

// The numbers of errors, as Linux has them.
const EINTR: i32 = 4;

const EPIPE: i32 = 32;

// A signal interrupted it; nobody reads the pipe any more; it failed.
#[derive(Clone, Copy, PartialEq, Eq)]
pub enum CallError {
    Again,
    Closed,
    Failed,
}

impl From<io::Error> for CallError {
    ghost from_gives = { λ why e. e ≡ call_error_of why };

    fn from(why: io::Error) -> CallError {
        match why.raw_os_error() {
            Some(EINTR) => CallError::Again,
            Some(EPIPE) => CallError::Closed,
            _ => CallError::Failed,
        }
    }
}

// How many bytes it moved, or that it moved none: no error is ever an answer of 0, and no answer of 0 is some bytes.
pub fn did_by(got: io::Result<usize>) -> Result<Option<usize>, CallError>
    ensures { result ≡ did_of got }
{
    match got? {
        0 => Ok(None),
        n => Ok(Some(n)),
    }
}
