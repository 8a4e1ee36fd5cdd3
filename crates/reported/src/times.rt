// The latest and the earliest seconds since midnight as numbers with no gap between them.
ghost use Rattle.std.specs.Prelude.{◌≡◌};
ghost use Rattle.report.specs.Peak.{range_in};
ghost use Rattle.reported.specs.Flat.{times_between, with_time_of};

use crate::ends::{new_end, newer};
use report::peak::TimeRange;
use report::range::Extremes;

// Numbers and no Option, as `Ends` are, and for its reason.
#[derive(Clone, Copy)]
pub(crate) struct TimeEnds {
    latest: u32,
    earliest: u32,
    seen: u64,
}

impl TimeEnds {
    // The ends of a range.
    #[tactic(auto, unfolding(crate::specs::Flat::ranged))]
    pub(crate) fn of(range: TimeRange) -> TimeEnds
        ensures { times_between result ≡ range_in range }
    {
        match range {
            None => TimeEnds {
                latest: 0,
                earliest: 0,
                seen: 0,
            },
            Some(Extremes { high, low }) => TimeEnds {
                latest: high,
                earliest: low,
                seen: 1,
            },
        }
    }

    // The range between them.
    pub(crate) fn range(self) -> TimeRange
        ensures { range_in result ≡ times_between self }
    {
        if self.seen == 0 {
            return None;
        }
        Some(Extremes {
            high: self.latest,
            low: self.earliest,
        })
    }

    // Of one time more, where it counts.
    pub(crate) fn after(self, counts: bool, seconds: u32) -> TimeEnds
        ensures { times_between result ≡ with_time_of counts seconds (times_between self) }
    {
        if !counts {
            return self;
        }
        let latest = new_end(self.seen, self.latest < seconds);
        let earliest = new_end(self.seen, seconds < self.earliest);
        TimeEnds {
            latest: newer(latest, seconds, self.latest),
            earliest: newer(earliest, seconds, self.earliest),
            seen: 1,
        }
    }
}
