// A walk to its end: the steps of `Walk::step` as one loop, which touches the tables on I and J lines alone, reads such
// a line once for its answer and its table, and adds to the report in place.
ghost use Rattle.std.specs.Prelude.{◌≡◌, true};
ghost use Rattle.table.specs.Table.{read_table, table_read};
ghost use Rattle.held.specs.Tables.{tables_after};
ghost use Rattle.walk.specs.Readings.{at_end_of};
ghost use Rattle.reported.specs.End.{walk_from_of, sets_table_of, left_of};

use crate::flat::Flat;
use crate::glance::{look, of_table};
use cursor::Cursor;
use held::Held;
use held::tables::Tables;
use igc_log::cut_at;
use part::InLine;
use table::Table;
use text::line::begins;
use text::refusal::Refusal;
use walk::Walk;

// The walk that stands there.
fn walk_from(held: Tables, answers: [u64; 13], figures: Flat, place: usize, number: u64) -> Walk
    ensures { result ≡ walk_from_of held answers figures place number }
{
    let report = figures.report(answers);
    let at = Cursor { place, number };
    Walk { held, report, at }
}

// The line begins with I or J.
fn sets_table(line: &[u8]) -> bool
    ensures { result ≡ sets_table_of line.now }
{
    if begins(b'I', line) {
        return true;
    }
    begins(b'J', line)
}

// An accepted line's table is in force, a refused line spoils it.
#[tactic(auto, unfolding(crate::specs::End::left_of))]
fn left_of(read: Result<Table, Refusal>) -> Held
    ensures { result ≡ left_of read }
{
    match read {
        Ok(table) => Held::Set(table),
        Err(_no) => Held::Spoiled,
    }
}

// What is held after an I or a J line that was read so.
fn with_table(before: Tables, line: &[u8], read: Result<Table, Refusal>) -> Tables
    requires { (sets_table_of line.now ≡ true) × (read ≡ table_read (read_table line.now)) }
    ensures { result ≡ tables_after before line.now }
{
    let set = left_of(read);
    let mut held = before;
    if begins(b'I', line) {
        held.i = set;
        return held;
    }
    held.j = set;
    held
}

// Steps until the walk is done.
pub fn walk_to_end(walk: Walk, log: &[u8]) -> Walk
    ensures { result ≡ at_end_of log.now walk }
{
    let before = walk.report;
    let mut held = walk.held;
    let mut answers = before.answers;
    let mut figures = Flat::of(before);
    let mut full = before.is_full();
    let mut place = walk.at.place;
    let mut number = walk.at.number;
    // A `while`, since it steps by what a line takes.
    while place < log.len() {
        if full {
            return walk_from(held, answers, figures, place, number);
        }
        if u64::MAX <= number {
            return walk_from(held, answers, figures, place, number);
        }
        let cut = cut_at(log, place);
        let part = cut.line;
        let line = part.view(log);
        let seen = if sets_table(line) {
            let read = Table::parse(line);
            held = with_table(held, line, read);
            of_table(read)
        } else {
            look(line)
        };
        let answer = seen.number as usize;
        let count = answers[answer] + 1;
        answers[answer] = count;
        figures = figures.after(place as u64, seen);
        full = figures.is_full(count);
        place = cut.next;
        number = number + 1;
    }
    walk_from(held, answers, figures, place, number)
}
