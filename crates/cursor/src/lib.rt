// A place in a log and the number of lines read so far. It is small, so a loop over a log carries it and keeps the
// table apart.
#![tactic(auto)]

ghost use Rattle.std.specs.Prelude.{◌≡◌};
ghost use Rattle.cursor.specs.Cursor.{start, next_of};

use igc_log::{Cut, cut_at};

#[derive(Clone, Copy)]
pub struct Cursor {
    pub place: usize,
    pub number: u64,
}

impl Cursor {
    // At the log's start.
    #[tactic(auto, unfolding(crate::specs::Cursor::start))]
    pub fn new() -> Cursor
        ensures { result ≡ start }
    {
        Cursor {
            place: 0,
            number: 0,
        }
    }

    // The line at the place, and the cursor after it.
    pub fn next(self, log: &[u8]) -> Option<(Cut, Cursor)>
        ensures { result ≡ next_of log.now self }
    {
        if log.len() <= self.place {
            return None;
        }
        if self.number == u64::MAX {
            return None;
        }
        let cut = cut_at(log, self.place);
        let after = Cursor {
            place: cut.next,
            number: self.number + 1,
        };
        Some((cut, after))
    }
}
