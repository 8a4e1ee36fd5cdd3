// The walk over a log, by value: place, line number, the tables of definitions in force, and the report of the lines
// read so far.
#![tactic(auto)]

pub mod turn;

ghost use Rattle.std.specs.Prelude.{◌≡◌};
ghost use Rattle.part.specs.Part.{shown, Shows};
ghost use Rattle.held.specs.Held.{look_up};
ghost use Rattle.walk.specs.Walk.{fresh, step_of};

use b_record::BRecord;
use cursor::Cursor;
use field::Mnemonic;
use held::Held;
use held::tables::Tables;
use k_record::KRecord;
use part::{InLine, Part};
use records::{Reading, Record};
use report::Report;
use text::line::begins;
use text::refusal::Refusal;

#[derive(Clone, Copy)]
pub struct Walk {
    pub held: Tables,
    pub report: Report,
    pub at: Cursor,
}

// The walk afterwards; and the line that was read, as a part of the log, with its reading, or none where the walk is
// done.
#[derive(Clone, Copy)]
pub struct Step {
    pub walk: Walk,
    pub taken: Option<(Part, Reading)>,
}

impl Walk {
    // At the log's start, with no table and the report of no lines.
    pub fn new() -> Walk
        ensures { result ≡ fresh }
    {
        let held = Tables::new();
        let report = Report::new();
        let at = Cursor::new();
        Walk { held, report, at }
    }

    // Reads the line at the place, and moves on. Where a count is at its largest the walk is done.
    pub fn step(self, log: &[u8]) -> Step
        ensures { result ≡ step_of log.now self }
    {
        let done = Step {
            walk: self,
            taken: None,
        };
        if self.report.is_full() {
            return done;
        }
        let Some((cut, at)) = self.at.next(log) else {
            return done;
        };
        let line = cut.line.view(log);
        let reading = Record::parse_line(line);
        // What `Tables::after` does, with each table copied once.
        let held = if begins(b'I', line) {
            Tables {
                i: Held::set_by(line),
                j: self.held.j,
            }
        } else if begins(b'J', line) {
            Tables {
                i: self.held.i,
                j: Held::set_by(line),
            }
        } else {
            self.held
        };
        Step {
            walk: Walk {
                held,
                report: self.report.after(self.at.place as u64, reading), // with this line, accepted or not
                at,
            },
            taken: Some((cut.line, reading)),
        }
    }

    // Lookup by name on a B line, in the I lines' table in force there: the walk is the one after that line's step.
    pub fn find_extension(self, fix: BRecord, name: Mnemonic, line: &[u8]) -> Result<Part, Refusal>
        ensures { result ≡ look_up 35 fix.rest self.held.i name line.now }
    {
        self.held.i.find(BRecord::BASE_LENGTH, fix.rest, name, line)
    }

    // The value itself, as a part of the caller's own line.
    pub fn get_extension(self, fix: BRecord, name: Mnemonic, line: &[u8]) -> &[u8]
        ensures { Shows line.entry (shown (look_up 35 fix.rest self.held.i name line.now)) result }
    {
        self.held.i.get(BRecord::BASE_LENGTH, fix.rest, name, line)
    }

    // Lookup by name on a K line, in the J lines' table in force there.
    pub fn find_k_extension(self, k: KRecord, name: Mnemonic, line: &[u8]) -> Result<Part, Refusal>
        ensures { result ≡ look_up 7 k.rest self.held.j name line.now }
    {
        self.held.j.find(KRecord::BASE_LENGTH, k.rest, name, line)
    }

    // The value itself, as a part of the caller's own line.
    pub fn get_k_extension(self, k: KRecord, name: Mnemonic, line: &[u8]) -> &[u8]
        ensures { Shows line.entry (shown (look_up 7 k.rest self.held.j name line.now)) result }
    {
        self.held.j.get(KRecord::BASE_LENGTH, k.rest, name, line)
    }
}
