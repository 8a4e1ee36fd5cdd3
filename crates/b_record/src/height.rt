// Heights on two datums, types apart: no place that wants the one takes the other.
ghost use Rattle.std.specs.Prelude.{◌≡◌, ℤ};
ghost use Rattle.text.specs.Number.{signed};
ghost use Rattle.put.specs.Put.{Wrote};
ghost use Rattle.b_record.specs.Height.{pressure_metres, gps_metres, at_pressure, at_gps};

use print::number::put_i16;

// A height of one datum.
pub trait Height: Copy {
    ghost metres_of: { Self → ℤ };

    ghost at_metres: { ℤ → Self };

    // Its number.
    fn metres(self) -> i16
        ensures { result ≡ metres_of self };

    // The height of that number.
    fn at(metres: i16) -> Self
        ensures { result ≡ at_metres metres };

    // The one place where the number of a height comes out as text.
    final fn put(self, buf: &mut [u8], at: usize, width: usize) -> usize
        ensures { Wrote buf.old at (signed width (metres_of self)) buf.new result }
    {
        put_i16(buf, at, self.metres(), width)
    }
}

// A height on the pressure datum. No place that wants a GPS height takes it.
#[derive(Clone, Copy)]
pub struct PressureAlt(pub i16);

// A height from GPS. No place that wants a pressure height takes it.
#[derive(Clone, Copy)]
pub struct GpsAlt(pub i16);

impl Height for PressureAlt {
    ghost metres_of = { pressure_metres };

    ghost at_metres = { at_pressure };

    fn metres(self) -> i16 {
        self.0
    }

    fn at(metres: i16) -> PressureAlt {
        PressureAlt(metres)
    }
}

impl Height for GpsAlt {
    ghost metres_of = { gps_metres };

    ghost at_metres = { at_gps };

    fn metres(self) -> i16 {
        self.0
    }

    fn at(metres: i16) -> GpsAlt {
        GpsAlt(metres)
    }
}
