// The report of a log: its lines by answer number, its accepted B lines, heights of those marked A, times of them all.
#![tactic(auto)]

pub mod peak;
pub mod range;

ghost use Rattle.std.specs.Prelude.{◌≡◌, get_or, set};
ghost use Rattle.report.specs.Counts.{one_full_of};
ghost use Rattle.report.specs.Figures.{empty};
ghost use Rattle.report.specs.Report.{taken_by, with_fix_of, is_full_of, figures_in};

use crate::peak::{GpsRange, Peak, PressureRange, TimeRange};
use crate::range::after;
use b_record::{BRecord, FixValid};
use records::{Reading, answer_number, fix_in};

#[derive(Clone, Copy)]
pub struct Report {
    pub answers: [u64; 13],
    pub lines: u64,
    pub fixes: u64,
    pub pressure: PressureRange,
    pub gps: GpsRange,
    pub times: TimeRange,
}

// The count of an answer; a number over 12 has none.
fn count_of(answers: [u64; 13], number: usize) -> u64
    ensures { result ≡ get_or answers number 0 }
{
    if number < 13 {
        return answers[number];
    }
    0
}

// The counts with another for that answer.
fn with_count(answers: [u64; 13], number: usize, count: u64) -> [u64; 13]
    ensures { result ≡ set answers number count }
{
    if number < 13 {
        let mut counts = answers;
        counts[number] = count;
        return counts;
    }
    answers
}

// One of the counts is at its largest.
fn one_full(answers: [u64; 13]) -> bool
    ensures { result ≡ one_full_of answers }
{
    for count in &answers {
        if *count == u64::MAX {
            return true;
        }
    }
    false
}

impl Report {
    // Over no readings.
    pub fn new() -> Report
        ensures { figures_in result ≡ empty }
    {
        Report {
            answers: [0u64; 13],
            lines: 0,
            fixes: 0,
            pressure: None,
            gps: None,
            times: None,
        }
    }

    // A count is at its largest: of lines, of fixes, or of an answer.
    pub fn is_full(self) -> bool
        ensures { result ≡ is_full_of (figures_in self) }
    {
        if self.lines == u64::MAX {
            return true;
        }
        if self.fixes == u64::MAX {
            return true;
        }
        one_full(self.answers)
    }

    // With the heights and the time of a fix more; one marked V shows no height, but it has a time.
    fn with_fix(self, place: u64, fix: BRecord) -> Report
        ensures { figures_in result ≡ with_fix_of (figures_in self) place fix }
    {
        let pressure = after(
            self.pressure,
            Peak {
                place,
                height: fix.pressure_alt,
            },
        );
        let gps = after(
            self.gps,
            Peak {
                place,
                height: fix.gps_alt,
            },
        );
        let times = after(self.times, fix.timestamp.seconds_since_midnight());
        match fix.fix_valid {
            FixValid::Valid => Report {
                pressure,
                gps,
                times,
                ..self
            },
            FixValid::NavWarning => Report { times, ..self },
        }
    }

    // Over one reading more, of the line at a place. Where a count is at its largest, the figures stay.
    pub fn after(self, place: u64, reading: Reading) -> Report
        ensures { figures_in result ≡ taken_by (figures_in self) place reading }
    {
        let number = answer_number(reading) as usize;
        let count = count_of(self.answers, number);
        if self.lines == u64::MAX {
            return self;
        }
        if count == u64::MAX {
            return self;
        }
        let counted = Report {
            lines: self.lines + 1,
            answers: with_count(self.answers, number, count + 1),
            ..self
        };
        let Some(fix) = fix_in(reading) else {
            return counted;
        };
        if self.fixes == u64::MAX {
            return self;
        }
        let with_one = Report {
            fixes: self.fixes + 1,
            ..counted
        };
        with_one.with_fix(place, fix)
    }
}
