// What a line of a log raised of a summit, and the text of it, of either datum.
#![tactic(auto)]

ghost use Rattle.std.specs.Prelude.{◌≡◌, ℕ, List};
ghost use Rattle.std.specs.Int.Signed.{lt_z};
ghost use Rattle.put.specs.Put.{Wrote};
ghost use Rattle.report.specs.Peak.{range_in};
ghost use Rattle.rise_text.specs.Rise.{raised, rise_of, rise_line, pressure_word, gps_word};

use b_record::{GpsAlt, Height, PressureAlt};
use print::number::put_nat;
use put::{put_byte, put_bytes};
use report::peak::Peak;
use report::range::{Extremes, Measured};

// A datum of heights by the word of its lines.
pub trait Datum: Height {
    ghost word: { List ℕ };

    // Its word between the number and the height.
    fn put_word(buf: &mut [u8], at: usize) -> usize
        ensures { Wrote buf.old at word buf.new result };
}

impl Datum for PressureAlt {
    ghost word = { pressure_word };

    #[tactic(auto, unfolding(text::specs::Spelt::spelt, text::specs::Spelt::spelt_from))]
    fn put_word(buf: &mut [u8], at: usize) -> usize {
        put_bytes(buf, at, b" pressure ")
    }
}

impl Datum for GpsAlt {
    ghost word = { gps_word };

    #[tactic(auto, unfolding(text::specs::Spelt::spelt, text::specs::Spelt::spelt_from))]
    fn put_word(buf: &mut [u8], at: usize) -> usize {
        put_bytes(buf, at, b" gps ")
    }
}

// From the heights before a line to those after it: the height that the summit rose to, or none.
pub fn rise<H: Height>(
    before: Option<Extremes<Peak<H>>>,
    now: Option<Extremes<Peak<H>>>,
) -> Option<H>
    ensures { result ≡ rise_of (raised (λ a b. lt_z (H.metres_of a.height) (H.metres_of b.height))
        (range_in before) (range_in now)) }
{
    let high = now?.high;
    let Some(so_far) = before else {
        return Some(high.height);
    };
    if so_far.high.below(high) {
        Some(high.height)
    } else {
        None
    }
}

// The line of it.
pub fn put_rise<H: Datum>(buf: &mut [u8], at: usize, number: u64, rise: Option<H>) -> usize
    ensures { Wrote buf.old at (rise_line H.word H.metres_of number rise) buf.new result }
{
    let Some(height) = rise else {
        return at;
    };
    let at_datum = put_nat(buf, at, number, 1);
    let at_height = H::put_word(buf, at_datum);
    let at_end = height.put(buf, at_height, 1);
    put_byte(buf, at_end, b'\n')
}
