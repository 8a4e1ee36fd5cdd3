// A record claim: a stricter reading of a whole log, or of a log in pieces, beside the ordinary one.
#![tactic(auto)]

pub mod verdict;

ghost use Rattle.std.specs.Prelude.{◌≡◌, ◌+◌, ◌≤◌, ◌<◌, true, length};
ghost use Rattle.text.specs.Prelude.{◌∨?◌};
ghost use Rattle.text.specs.Word.{largest};
ghost use Rattle.igc_log.specs.Log.{readings};
ghost use Rattle.igc_log.specs.Fold.{over};
ghost use Rattle.walk.specs.Readings.{reader};
ghost use Rattle.claim.specs.Claim.{claim_of};
ghost use Rattle.claim.specs.Step.{fresh, comes_before, seen_again, out_of_place, line_verdict_of, last_with_of};
ghost use Rattle.claim.specs.Step.{passed, no_start, second_back, judged, claim_step, claim_on_of, verdict_at_end};

use crate::verdict::{Rule, Verdict};
use claim_line::{Asked, ask_at};

// What goes from line to line: how many passed, the last time, whether one went back, whether an I, a J or a B line was
// seen; and the verdict so far, which is yes until a line fails.
#[derive(Clone, Copy)]
pub struct Sofar {
    pub verdict: Verdict,
    pub lines: u64,
    pub last: u32,
    pub back: bool,
    pub i: bool,
    pub j: bool,
    pub b: bool,
}

fn no(line: u64, rule: Rule) -> Verdict
    ensures { result ≡ Verdict.No line rule }
{
    Verdict::No { line, rule }
}

fn either(one: bool, other: bool) -> bool
    ensures { result ≡ (one ∨? other) }
{
    one || other
}

// The second of a fix is before the last one; an equal one is not.
#[tactic(auto, unfolding(crate::specs::Step::comes_before, report::specs::Figures::earlier))]
fn goes_back(last: u32, second: Option<u32>) -> bool
    ensures { result ≡ comes_before last second }
{
    match second {
        Some(time) => time < last,
        None => false,
    }
}

// The last time, after this line.
#[tactic(auto, unfolding(crate::specs::Step::last_with_of))]
fn last_with(last: u32, second: Option<u32>) -> u32
    ensures { result ≡ last_with_of last second }
{
    second.unwrap_or(last)
}

// A line of a letter where one of it, or a B line, was seen.
fn is_again(here: bool, one: bool, b: bool) -> bool
    ensures { result ≡ seen_again here one b }
{
    here && either(one, b)
}

impl Sofar {
    // Before the first line.
    #[tactic(auto, unfolding(crate::specs::Step::fresh))]
    pub fn new() -> Sofar
        ensures { result ≡ fresh }
    {
        Sofar {
            verdict: Verdict::Yes,
            lines: 0,
            last: 0,
            back: false,
            i: false,
            j: false,
            b: false,
        }
    }

    // An I or a J line that stands where none may.
    fn is_out_of_place(self, line: Asked) -> bool
        ensures { result ≡ out_of_place self line }
    {
        either(
            is_again(line.i, self.i, self.b),
            is_again(line.j, self.j, self.b),
        )
    }

    // The first line, and no A line.
    fn is_no_start(self, line: Asked) -> bool
        ensures { result ≡ no_start self line }
    {
        self.lines == 0 && !line.a
    }

    // The second time that goes back.
    fn is_second_back(self, line: Asked) -> bool
        ensures { result ≡ second_back self line }
    {
        self.back && goes_back(self.last, line.second)
    }

    // The first rule that a line breaks which follows on those that passed.
    fn line_verdict(self, line: Asked) -> Verdict
        requires { self.lines < largest }
        ensures { result ≡ line_verdict_of self line }
    {
        let number = self.lines + 1;
        if self.is_no_start(line) {
            return no(number, Rule::First);
        }
        if self.is_out_of_place(line) {
            return no(number, Rule::Table);
        }
        if !line.short {
            return no(number, Rule::Long);
        }
        if !line.accepted {
            return no(number, Rule::Refused);
        }
        if !line.book {
            return no(number, Rule::Book);
        }
        if self.is_second_back(line) {
            return no(number, Rule::Time);
        }
        Verdict::Yes
    }

    // One line more has passed.
    #[tactic(auto, unfolding(crate::specs::Step::passed))]
    fn pass(self, line: Asked) -> Sofar
        requires { self.lines < largest }
        ensures { result ≡ passed self line }
    {
        Sofar {
            verdict: Verdict::Yes,
            lines: self.lines + 1,
            last: last_with(self.last, line.second),
            back: either(self.back, goes_back(self.last, line.second)),
            i: either(self.i, line.i),
            j: either(self.j, line.j),
            b: either(self.b, line.b),
        }
    }

    // After a line that follows on those that passed.
    fn after(self, line: Asked) -> Sofar
        requires { self.lines < largest }
        ensures { result ≡ judged self line }
    {
        let verdict = self.line_verdict(line);
        if verdict.is_yes() {
            return self.pass(line);
        }
        Sofar { verdict, ..self }
    }

    // The verdict, where these were all lines: without any, the first fails.
    pub fn at_end(self) -> Verdict
        ensures { result ≡ verdict_at_end self }
    {
        if !self.verdict.is_yes() {
            return self.verdict;
        }
        if self.lines == 0 {
            return no(1, Rule::First);
        }
        Verdict::Yes
    }
}

// A line at a time, up to the first that fails. Each turn steps by the line that it reads: no `for` has these places.
fn claim_from(before: Sofar, piece: &[u8]) -> Sofar
    requires { before.lines + length piece.now ≤ largest }
    ensures { result ≡ over claim_step before (readings reader piece.now) }
{
    let mut sofar = before;
    let mut at = 0;
    while at < piece.len() {
        if !sofar.verdict.is_yes() {
            return sofar;
        }
        let here = ask_at(piece, at);
        sofar = sofar.after(here.asked);
        at = here.next;
    }
    sofar
}

// After a piece more of whole lines, or the last of a log. Where a line's number could pass 64 bits, nothing is taken.
pub fn claim_on(before: Sofar, piece: &[u8]) -> Sofar
    ensures { result ≡ claim_on_of before piece.now }
{
    if 0xffff_ffff_ffff_ffff - before.lines < piece.len() as u64 {
        return before;
    }
    claim_from(before, piece)
}

// The verdict on a log.
pub fn claim(log: &[u8]) -> Verdict
    ensures { result ≡ claim_of (readings reader log.now) }
{
    claim_on(Sofar::new(), log).at_end()
}
