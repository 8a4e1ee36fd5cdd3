// A height of one datum with its place: pressure and GPS heights are types apart, and so are their peaks.
ghost use Rattle.std.specs.Prelude.{◌≡◌};
ghost use Rattle.std.specs.Int.Signed.{lt_z};

use crate::range::{Extremes, Measured};
use b_record::{GpsAlt, Height, PressureAlt};

// A height, and the byte offset of the first fix that reached it.
#[derive(Clone, Copy)]
pub struct Peak<H> {
    pub place: u64,
    pub height: H,
}

pub type PressurePeak = Peak<PressureAlt>;

pub type GpsPeak = Peak<GpsAlt>;

// No place that wants GPS heights takes it.
pub type PressureRange = Option<Extremes<PressurePeak>>;

// No place that wants pressure heights takes it.
pub type GpsRange = Option<Extremes<GpsPeak>>;

// Seconds since midnight: the latest is the high one.
pub type TimeRange = Option<Extremes<u32>>;

// By height alone.
impl<H: Height> Measured for Peak<H> {
    ghost lower = { λ a b. lt_z (H.metres_of a.height) (H.metres_of b.height) };

    fn below(self, other: Peak<H>) -> bool {
        self.height.metres() < other.height.metres()
    }
}
