// The highest and the lowest height of one datum as numbers: a loop carries these, not a range.
ghost use Rattle.std.specs.Prelude.{◌≡◌};
ghost use Rattle.std.specs.Int.Signed.{lt_z};
ghost use Rattle.report.specs.Peak.{range_in};
ghost use Rattle.reported.specs.Flat.{ends_between, one_seen};

use crate::ends::{new_end, newer};
use b_record::Height;
use report::peak::Peak;
use report::range::Extremes;

// Numbers with no gap between them, and `seen` one of them and no Option: a loop over a log misses its speed bar with a
// range in their place.
#[derive(Clone, Copy)]
pub(crate) struct Ends<H> {
    high_place: u64,
    low_place: u64,
    high: H,
    low: H,
    seen: u32,
}

impl<H: Height> Ends<H> {
    // The ends of a range.
    #[tactic(auto, unfolding(crate::specs::Flat::ranged))]
    pub(crate) fn of(range: Option<Extremes<Peak<H>>>) -> Ends<H>
        ensures { ends_between result ≡ range_in range }
    {
        match range {
            None => Ends {
                high_place: 0,
                low_place: 0,
                high: H::at(0),
                low: H::at(0),
                seen: 0,
            },
            Some(Extremes { high, low }) => Ends {
                high_place: high.place,
                low_place: low.place,
                high: high.height,
                low: low.height,
                seen: 1,
            },
        }
    }

    // The range between them.
    pub(crate) fn range(self) -> Option<Extremes<Peak<H>>>
        ensures { range_in result ≡ ends_between self }
    {
        if self.seen == 0 {
            return None;
        }
        Some(Extremes {
            high: Peak {
                place: self.high_place,
                height: self.high,
            },
            low: Peak {
                place: self.low_place,
                height: self.low,
            },
        })
    }

    // Of one height more, where it counts.
    pub(crate) fn after(self, counts: bool, place: u64, height: H) -> Ends<H>
        ensures { ends_between result ≡ one_seen (λ a b. lt_z (H.metres_of a.height) (H.metres_of b.height)) counts
            (record { place = place; height = height }) (ends_between self) }
    {
        if !counts {
            return self;
        }
        let highest = new_end(self.seen as u64, self.high.metres() < height.metres());
        let lowest = new_end(self.seen as u64, height.metres() < self.low.metres());
        Ends {
            high_place: newer(highest, place, self.high_place),
            low_place: newer(lowest, place, self.low_place),
            high: newer(highest, height, self.high),
            low: newer(lowest, height, self.low),
            seen: 1,
        }
    }
}
