// How a run ended, and a text written.
ghost use Rattle.std.specs.Prelude.{◌≡◌};
ghost use Rattle.files.specs.Outcome.{cuts_short_of, failure_of, outcome_of, outcome_after, Sent};
ghost use Rattle.files.specs.declared.outcome.Failure.{Failure};

use crate::input::{Filled, NotRead};
use crate::output::{WriteError, write_all};
use crate::system::{Sink, System};
use crate::terminal::make_visible;

// The log could not be read to its end; after so many lines one is longer than the window, or its text has no room; the
// text could not be written; nobody reads it any more.
#[derive(Clone, Copy, PartialEq, Eq)]
pub enum Failure {
    NotRead,
    LongLine(u64),
    NoRoom(u64),
    NotWritten,
    Closed,
}

// Nothing went wrong, or what did.
pub type Outcome = Result<(), Failure>;

impl Failure {
    // What was written is true as far as it goes, and the log goes on.
    pub fn cuts_short(self) -> bool
        ensures { result ≡ cuts_short_of self }
    {
        match self {
            Failure::NotRead | Failure::LongLine(_) | Failure::NoRoom(_) => true,
            Failure::NotWritten | Failure::Closed => false,
        }
    }
}

impl From<NotRead> for Failure {
    ghost from_gives = { λ _ e. e ≡ Failure.NotRead };

    fn from(_: NotRead) -> Failure {
        Failure::NotRead
    }
}

impl From<WriteError> for Failure {
    ghost from_gives = { λ why e. e ≡ failure_of why };

    fn from(why: WriteError) -> Failure {
        match why {
            WriteError::Closed => Failure::Closed,
            WriteError::Failed => Failure::NotWritten,
        }
    }
}

// A log that could not be read to its end has no good outcome, whatever was written.
pub fn of_filled(filled: Result<Filled, NotRead>, written: Outcome) -> Outcome
    ensures { result ≡ outcome_after filled written }
{
    filled?;
    written
}

// By what became of the text.
pub fn of_written(written: Result<(), WriteError>) -> Outcome
    ensures { result ≡ outcome_of written }
{
    Ok(written?)
}

// To a terminal as it is fit for one, to anything else every byte as it is.
pub fn write_text(sys: &System, to: Sink, text: &mut [u8]) -> Outcome
    ensures { Sent text.old text.new }
{
    if sys.is_terminal(to) {
        make_visible(text);
    }
    of_written(write_all(sys, to, text))
}
