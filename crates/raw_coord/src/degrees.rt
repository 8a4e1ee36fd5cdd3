// Degrees as floats, which in the Rust are conversions into f32 and f64.
ghost use Rattle.std.specs.Prelude.{◌≡◌};
ghost use Rattle.std.specs.Float.{binary32, binary64};
ghost use Rattle.raw_coord.specs.Degrees.{degrees_of};

use crate::{Compass, RawCoord};

impl RawCoord {
    // Degrees as a float of 32 bits, negative in the south and the west.
    pub fn to_f32(self) -> f32
        ensures { result ≡ degrees_of binary32 self }
    {
        let in_f32 = self.degrees as f32 + self.minute_thousandths as f32 / 60000.0;
        match self.sign {
            Compass::North | Compass::East => in_f32,
            Compass::South | Compass::West => -in_f32,
        }
    }

    // The same of 64 bits.
    pub fn to_f64(self) -> f64
        ensures { result ≡ degrees_of binary64 self }
    {
        let in_f64 = self.degrees as f64 + self.minute_thousandths as f64 / 60000.0;
        match self.sign {
            Compass::North | Compass::East => in_f64,
            Compass::South | Compass::West => -in_f64,
        }
    }
}
