// A log, or a piece of one, taken into a report. The loop carries the figures as plain numbers and looks at a line by
// a glance, so that it copies no record and no range.
#![tactic(auto)]

pub mod end;
mod ends;
mod flat;
mod glance;
mod heights;
mod times;

ghost use Rattle.std.specs.Prelude.{◌≡◌, ◌+◌, ◌≤◌, length};
ghost use Rattle.text.specs.Word.{largest};
ghost use Rattle.report.specs.Report.{figures_in};
ghost use Rattle.reported.specs.Reported.{figures_on, nothing_yet, report_on_of, so_far_in};

use crate::flat::Flat;
use crate::glance::look;
use igc_log::cut_at;
use part::InLine;
use report::Report;

// The report of the lines so far, and the place of the next.
#[derive(Clone, Copy)]
pub struct Sofar {
    pub report: Report,
    pub place: u64,
}

impl Sofar {
    // Before the first line.
    #[tactic(auto, unfolding(crate::specs::Reported::nothing_yet))]
    pub fn new() -> Sofar
        ensures { so_far_in result ≡ nothing_yet }
    {
        Sofar {
            report: Report::new(),
            place: 0,
        }
    }
}

// The report over the lines of a piece more, whose first stands at a place.
fn report_from(before: Report, place: u64, piece: &[u8]) -> Report
    requires { place + length piece.now ≤ largest }
    ensures { figures_in result ≡ figures_on (figures_in before) place piece.now }
{
    let mut answers = before.answers;
    let mut figures = Flat::of(before);
    let mut at = 0;
    // A `while`, since it steps by what a line takes.
    while at < piece.len() {
        let cut = cut_at(piece, at);
        let part = cut.line;
        let seen = look(part.view(piece));
        let number = seen.number as usize;
        let count = answers[number];
        if figures.has_room(count, seen) {
            answers[number] = count + 1;
            figures = figures.after(place + at as u64, seen);
        }
        at = cut.next;
    }
    figures.report(answers)
}

// The report over a piece more. Where its end would pass 64 bits, it stays.
pub fn report_on(before: Sofar, piece: &[u8]) -> Sofar
    ensures { so_far_in result ≡ report_on_of (so_far_in before) piece.now }
{
    let report = before.report;
    let place = before.place;
    let length = piece.len() as u64;
    if u64::MAX - place < length {
        return before;
    }
    Sofar {
        report: report_from(report, place, piece),
        place: place + length,
    }
}
