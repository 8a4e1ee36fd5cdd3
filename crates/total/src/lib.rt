// The total of some logs: the figures of a report over all of them in order.
#![tactic(auto)]

ghost use Rattle.std.specs.Prelude.{◌≡◌};
ghost use Rattle.report.specs.Report.{figures_in};
ghost use Rattle.total.specs.Total.{add_res, join_res, joined_in, no_logs, one_log, sums_res, total_in};

use report::Report;
use report::peak::TimeRange;
use report::range::joined;
use span::{GpsSpan, PressureSpan, fits, in_log, later};

#[derive(Clone, Copy)]
pub struct Total {
    pub answers: [u64; 13],
    pub logs: u64,
    pub lines: u64,
    pub fixes: u64,
    pub pressure: PressureSpan,
    pub gps: GpsSpan,
    pub times: TimeRange,
}

// A count of a joined total, or a log number in it, would not fit its field of 64 bits.
#[derive(Clone, Copy, PartialEq, Eq)]
pub struct TooLarge;

impl TooLarge {
    // The number that the paper gives it.
    pub fn number(self) -> u8
        ensures { result ≡ 21 }
    {
        21
    }
}

// Counts with those of another, where they fit.
fn add_counts(counts: [u64; 13], more: [u64; 13]) -> Option<[u64; 13]>
    ensures { result ≡ sums_res counts more }
{
    let mut all = counts;
    for i in 0..13 {
        if u64::MAX - counts[i] < more[i] {
            return None;
        }
        all[i] = counts[i] + more[i];
    }
    Some(all)
}

impl Total {
    // Of no logs.
    pub fn new() -> Total
        ensures { total_in result ≡ no_logs }
    {
        Total {
            answers: [0u64; 13],
            logs: 0,
            lines: 0,
            fixes: 0,
            pressure: None,
            gps: None,
            times: None,
        }
    }

    // Of one log.
    fn of_log(report: Report) -> Total
        ensures { total_in result ≡ one_log (figures_in report) }
    {
        let answers = report.answers;
        Total {
            answers,
            logs: 1,
            lines: report.lines,
            fixes: report.fixes,
            pressure: in_log(1, report.pressure),
            gps: in_log(1, report.gps),
            times: report.times,
        }
    }

    // The logs of this one and then those of the other, whose log numbers are shifted by the length of the first. 21
    // where a joined count or a shifted log number would not fit.
    pub fn join(self, other: Total) -> Result<Total, TooLarge>
        ensures { joined_in result ≡ join_res (total_in self) (total_in other) }
    {
        if u64::MAX - self.logs < other.logs {
            return Err(TooLarge);
        }
        if u64::MAX - self.lines < other.lines {
            return Err(TooLarge);
        }
        if u64::MAX - self.fixes < other.fixes {
            return Err(TooLarge);
        }
        let Some(answers) = add_counts(self.answers, other.answers) else {
            return Err(TooLarge);
        };
        if !fits(other.pressure, self.logs) {
            return Err(TooLarge);
        }
        if !fits(other.gps, self.logs) {
            return Err(TooLarge);
        }
        Ok(Total {
            answers,
            logs: self.logs + other.logs,
            lines: self.lines + other.lines,
            fixes: self.fixes + other.fixes,
            pressure: joined(self.pressure, later(other.pressure, self.logs)),
            gps: joined(self.gps, later(other.gps, self.logs)),
            times: joined(self.times, other.times),
        })
    }

    // With the report of one log more.
    pub fn add(self, report: Report) -> Result<Total, TooLarge>
        ensures { joined_in result ≡ add_res (total_in self) (figures_in report) }
    {
        self.join(Total::of_log(report))
    }
}
