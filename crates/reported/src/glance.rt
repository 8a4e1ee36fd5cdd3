// What a report wants of a line: small, so that a loop over a log carries no record. B lines, nearly all lines there
// are, are read with no record around the fix.
ghost use Rattle.std.specs.Prelude.{◌≡◌};
ghost use Rattle.text.specs.Res.{bind, ok};
ghost use Rattle.b_record.specs.BRecord.{read_b};
ghost use Rattle.records.specs.Record.{read_line_of};
ghost use Rattle.reported.specs.Glance.{is_marked_of, plain_glance, fix_glance, glance_of, table_number};

use b_quick::quick_fix;
use b_record::{BRecord, FixValid, GpsAlt, PressureAlt};
use records::{Record, answer_number};
use table::Table;
use text::line::begins;
use text::refusal::Refusal;

#[derive(Clone, Copy)]
pub(crate) struct Glance {
    pub(crate) seconds: u32,
    pub(crate) pressure: PressureAlt,
    pub(crate) gps: GpsAlt,
    pub(crate) number: u8,
    pub(crate) fix: bool,
    pub(crate) marked: bool,
}

#[tactic(auto, unfolding(crate::specs::Glance::is_marked_of))]
fn is_marked(valid: FixValid) -> bool
    ensures { result ≡ is_marked_of valid }
{
    match valid {
        FixValid::Valid => true,
        FixValid::NavWarning => false,
    }
}

// Of a line that is no fix.
#[tactic(auto, unfolding(crate::specs::Glance::plain_glance))]
fn of_other(number: u8) -> Glance
    ensures { result ≡ plain_glance number }
{
    Glance {
        seconds: 0,
        pressure: PressureAlt(0),
        gps: GpsAlt(0),
        number,
        fix: false,
        marked: false,
    }
}

// Of an accepted B line.
#[tactic(auto, unfolding(crate::specs::Glance::fix_glance))]
fn of_fix(fix: BRecord) -> Glance
    ensures { result ≡ fix_glance 0 fix }
{
    let time = fix.timestamp;
    let valid = fix.fix_valid;
    let pressure = fix.pressure_alt;
    let gps = fix.gps_alt;
    let seconds = time.seconds_since_midnight();
    let marked = is_marked(valid);
    Glance {
        seconds,
        pressure,
        gps,
        number: 0,
        fix: true,
        marked,
    }
}

// Of a line that begins with B: a fix of plain digits, as nearly all are, the quick way.
fn of_b(line: &[u8]) -> Glance
    ensures { result ≡ glance_of (bind (read_b line.now) (λ b. ok (Record.B b))) }
{
    match quick_fix(line) {
        Some(fix) => of_fix(fix),
        None => match BRecord::parse(line) {
            Ok(b) => of_fix(b),
            Err(no_b) => of_other(no_b.number()),
        },
    }
}

// Of an I or a J line that was read so.
#[tactic(auto, unfolding(crate::specs::Glance::table_number))]
pub(crate) fn of_table(read: Result<Table, Refusal>) -> Glance
    ensures { result ≡ plain_glance (table_number read) }
{
    match read {
        Ok(_table) => of_other(0),
        Err(no_table) => of_other(no_table.number()),
    }
}

// Of any line: none but a B line is a fix.
pub(crate) fn look(line: &[u8]) -> Glance
    ensures { result ≡ glance_of (read_line_of line.now) }
{
    if begins(b'B', line) {
        return of_b(line);
    }
    of_other(answer_number(Record::parse_line(line)))
}
