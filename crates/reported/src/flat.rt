// All figures of a report but its counts by answer number, which a loop keeps in an array beside: numbers with no gap
// between them in memory.
ghost use Rattle.std.specs.Prelude.{◌≡◌, ℕ, ◌+◌, ◌≤◌, ◌<◌, List};
ghost use Rattle.text.specs.Word.{largest};
ghost use Rattle.text.specs.Res.{pick};
ghost use Rattle.report.specs.Report.{figures_in};
ghost use Rattle.reported.specs.Flat.{flat_in, room_by, full_by, one_more, glanced};

use crate::glance::Glance;
use crate::heights::Ends;
use crate::times::TimeEnds;
use b_record::{GpsAlt, PressureAlt};
use report::Report;

#[derive(Clone, Copy)]
pub(crate) struct Flat {
    pressure: Ends<PressureAlt>,
    gps: Ends<GpsAlt>,
    times: TimeEnds,
    lines: u64,
    fixes: u64,
}

// A fix counts as one.
#[tactic(auto, unfolding(text::specs::Res::pick))]
fn one_if(fix: bool) -> u64
    ensures { result ≡ pick fix 1 0 }
{
    if fix { 1 } else { 0 }
}

impl Flat {
    // The figures of a report.
    pub(crate) fn of(report: Report) -> Flat
        ensures { flat_in report.answers result ≡ figures_in report }
    {
        Flat {
            pressure: Ends::of(report.pressure),
            gps: Ends::of(report.gps),
            times: TimeEnds::of(report.times),
            lines: report.lines,
            fixes: report.fixes,
        }
    }

    // The report of these figures, with its counts by answer number.
    pub(crate) fn report(self, answers: [u64; 13]) -> Report
        ensures { figures_in result ≡ flat_in answers self }
    {
        Report {
            answers,
            lines: self.lines,
            fixes: self.fixes,
            pressure: self.pressure.range(),
            gps: self.gps.range(),
            times: self.times.range(),
        }
    }

    // No count that a line raises is at its largest; `count` is that of its answer.
    pub(crate) fn has_room(self, count: u64, seen: Glance) -> bool
        ensures { result ≡ room_by self.lines count self.fixes seen.fix }
    {
        if u64::MAX <= self.lines {
            return false;
        }
        if u64::MAX <= count {
            return false;
        }
        if seen.fix {
            return self.fixes < u64::MAX;
        }
        true
    }

    // A count that a line raised is at its largest; `count` is that of its answer.
    pub(crate) fn is_full(self, count: u64) -> bool
        ensures { result ≡ full_by self.lines self.fixes count }
    {
        if u64::MAX <= self.lines {
            return true;
        }
        if u64::MAX <= self.fixes {
            return true;
        }
        u64::MAX <= count
    }

    // Over one line more, at a place.
    pub(crate) fn after(self, place: u64, seen: Glance) -> Flat
        requires { (self.lines < largest) × (self.fixes + pick seen.fix 1 0 ≤ largest) }
        ensures { (answers : List ℕ) →
            flat_in (one_more answers seen.number) result ≡ glanced (flat_in answers self) place seen }
    {
        Flat {
            pressure: self.pressure.after(seen.marked, place, seen.pressure),
            gps: self.gps.after(seen.marked, place, seen.gps),
            times: self.times.after(seen.fix, seen.seconds),
            lines: self.lines + 1,
            fixes: self.fixes + one_if(seen.fix),
        }
    }
}
