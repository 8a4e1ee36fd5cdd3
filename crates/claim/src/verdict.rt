// The verdict on a record claim.
ghost use Rattle.std.specs.Prelude.{◌≡◌};
ghost use Rattle.claim.specs.Step.{is_yes};

// What is asked of a log, in the order of the request: the first line begins with A; at most one I and one J line,
// before any B; no line over 76 bytes; every line accepted; and by the book; B times going back once at most.
#[derive(Clone, Copy)]
pub enum Rule {
    First,
    Table,
    Long,
    Refused,
    Book,
    Time,
}

// All rules hold; or the first line at which one fails, counted from 1, and the first rule that fails there.
// A verdict's two words: a no is an answer and no error, so that it is no `Result`.
#[derive(Clone, Copy)]
pub enum Verdict {
    Yes,
    No { line: u64, rule: Rule },
}

impl Verdict {
    // Nothing fails.
    #[tactic(auto, unfolding(crate::specs::Step::is_yes))]
    pub fn is_yes(self) -> bool
        ensures { result ≡ is_yes self }
    {
        match self {
            Verdict::Yes => true,
            Verdict::No { .. } => false,
        }
    }
}
