// The heights of one datum over some logs, each with its log. Pressure and GPS heights are types apart.
#![tactic(auto)]

ghost use Rattle.std.specs.Prelude.{◌+◌, ◌≤◌, ◌≡◌};
ghost use Rattle.std.specs.Int.Signed.{lt_z};
ghost use Rattle.report.specs.Peak.{range_in};
ghost use Rattle.text.specs.Word.{largest};
ghost use Rattle.span.specs.Spot.{spot_of, later_spot};
ghost use Rattle.span.specs.Span.{all_fit, mapped, numbers_of, shifted};

use b_record::{GpsAlt, Height, PressureAlt};
use report::peak::Peak;
use report::range::{Extremes, Measured};

// A height, and the log number, from 1, and the byte offset of the first fix that reached it.
#[derive(Clone, Copy)]
pub struct Spot<H> {
    pub log: u64,
    pub place: u64,
    pub height: H,
}

pub type PressureSpot = Spot<PressureAlt>;

pub type GpsSpot = Spot<GpsAlt>;

// No place that wants GPS heights takes it.
pub type PressureSpan = Option<Extremes<PressureSpot>>;

// No place that wants pressure heights takes it.
pub type GpsSpan = Option<Extremes<GpsSpot>>;

// By height alone.
impl<H: Height> Measured for Spot<H> {
    ghost lower = { λ a b. lt_z (H.metres_of a.height) (H.metres_of b.height) };

    fn below(self, other: Spot<H>) -> bool {
        self.height.metres() < other.height.metres()
    }
}

impl<H: Height> Spot<H> {
    // A height of that log.
    fn in_log(log: u64, peak: Peak<H>) -> Spot<H>
        ensures { result ≡ spot_of log peak }
    {
        Spot {
            log,
            place: peak.place,
            height: peak.height,
        }
    }

    // With so many logs more before its own.
    fn later(self, before: u64) -> Spot<H>
        requires { before + self.log ≤ largest }
        ensures { result ≡ later_spot before self }
    {
        Spot {
            log: before + self.log,
            place: self.place,
            height: self.height,
        }
    }
}

// The heights of that log.
pub fn in_log<H: Height>(log: u64, range: Option<Extremes<Peak<H>>>) -> Option<Extremes<Spot<H>>>
    ensures { range_in result ≡ mapped (spot_of log) (range_in range) }
{
    let peaks = range?;
    Some(Extremes {
        high: Spot::in_log(log, peaks.high),
        low: Spot::in_log(log, peaks.low),
    })
}

// Their log numbers fit with so many logs before them.
pub fn fits<H: Height>(span: Option<Extremes<Spot<H>>>, before: u64) -> bool
    ensures { result ≡ all_fit (numbers_of (λ s. s.log) (mapped (later_spot before) (range_in span))) }
{
    match span {
        None => true,
        Some(spots) => {
            if u64::MAX - before < spots.high.log {
                return false;
            }
            spots.low.log <= u64::MAX - before
        }
    }
}

// With so many logs before them, where their log numbers then fit; else as they were.
pub fn later<H: Height>(span: Option<Extremes<Spot<H>>>, before: u64) -> Option<Extremes<Spot<H>>>
    ensures { range_in result ≡ shifted (λ s. s.log) (later_spot before) (range_in span) }
{
    if !fits(span, before) {
        return span;
    }
    let spots = span?;
    Some(Extremes {
        high: spots.high.later(before),
        low: spots.low.later(before),
    })
}
