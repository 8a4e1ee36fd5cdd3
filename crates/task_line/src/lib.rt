// What the lines of a log are to a task: declarations, turnpoints and others.
#![tactic(auto)]

ghost use Rattle.std.specs.Prelude.{◌≡◌};
ghost use Rattle.task_line.specs.Lines.{record_kind, answer_kind, Sees};

use ahead::cut_ahead;
use c_turnpoint_record::CRecordTurnpoint;
use part::{InLine, Part};
use records::{Reading, Record};

// What a line is to a task: three ways, so neither an Option nor a Result.
#[derive(Clone, Copy)]
pub enum Kind {
    Declaration(i8),
    Point(CRecordTurnpoint),
    Other,
}

// What the line at a place is, which part of the log, and the place after it.
#[derive(Clone, Copy)]
pub struct Seen {
    pub kind: Kind,
    pub line: Part,
    pub next: usize,
}

#[tactic(auto, unfolding(crate::specs::Lines::record_kind))]
fn kind_of_record(found: Record) -> Kind
    ensures { result ≡ record_kind found }
{
    match found {
        Record::CDeclaration(task) => Kind::Declaration(task.turnpoint_count),
        Record::CTurnpoint(point) => Kind::Point(point),
        _ => Kind::Other,
    }
}

// What a line with that reading is.
#[tactic(auto, unfolding(crate::specs::Lines::answer_kind))]
fn kind_of(reading: Reading) -> Kind
    ensures { result ≡ answer_kind reading }
{
    reading.map(kind_of_record).unwrap_or(Kind::Other)
}

// The line that begins at a place, as a task sees it; past the log's end it is an empty one.
pub fn line_at(log: &[u8], at: usize) -> Seen
    ensures { Sees log.now at result }
{
    let cut = cut_ahead(log, at);
    let line = cut.line;
    let next = cut.next;
    let reading = Record::parse_line(line.view(log));
    let kind = kind_of(reading);
    Seen { kind, line, next }
}
