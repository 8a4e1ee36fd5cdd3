// Lines of the heights of one datum, of a log and of all logs. Pressure and GPS heights are types apart.
ghost use Rattle.std.specs.Prelude.{ℕ, List, ◌++◌};
ghost use Rattle.put.specs.Put.{Wrote};
ghost use Rattle.text.specs.Number.{signed};
ghost use Rattle.text.specs.Spelt.{spelt};
ghost use Rattle.report.specs.Peak.{range_in};
ghost use Rattle.sheet_text.specs.Sheet.{at_place_of, at_spot, range_lines};

use crate::line::{put_place, put_spot};
use b_record::{GpsAlt, Height, PressureAlt};
use put::put_bytes;
use report::peak::Peak;
use report::range::Extremes;
use span::Spot;

// A datum of heights by the name that its lines begin with.
pub trait Datum: Height {
    ghost name: { List ℕ };

    // Its name.
    fn put_name(buf: &mut [u8], at: usize) -> usize
        ensures { Wrote buf.old at name buf.new result };
}

impl Datum for PressureAlt {
    ghost name = { spelt "pressure" };

    #[tactic(auto, unfolding(text::specs::Spelt::spelt, text::specs::Spelt::spelt_from))]
    fn put_name(buf: &mut [u8], at: usize) -> usize {
        put_bytes(buf, at, b"pressure")
    }
}

impl Datum for GpsAlt {
    ghost name = { spelt "gps" };

    #[tactic(auto, unfolding(text::specs::Spelt::spelt, text::specs::Spelt::spelt_from))]
    fn put_name(buf: &mut [u8], at: usize) -> usize {
        put_bytes(buf, at, b"gps")
    }
}

// A height with its place.
pub trait Placed: Copy {
    ghost shown: { Self → List ℕ };

    // The height and then its place.
    fn put(self, buf: &mut [u8], at: usize) -> usize
        ensures { Wrote buf.old at (shown self) buf.new result };
}

// Of a log.
impl<H: Height> Placed for Peak<H> {
    ghost shown = { λ p. signed 1 (H.metres_of p.height) ++ at_place_of p.place };

    fn put(self, buf: &mut [u8], at: usize) -> usize {
        let at_place = self.height.put(buf, at, 1);
        put_place(buf, at_place, self.place)
    }
}

// Of all logs.
impl<H: Height> Placed for Spot<H> {
    ghost shown = { λ p. signed 1 (H.metres_of p.height) ++ at_spot p.log p.place };

    fn put(self, buf: &mut [u8], at: usize) -> usize {
        let at_place = self.height.put(buf, at, 1);
        put_spot(buf, at_place, self.log, self.place)
    }
}

// A height with its place, whose type says its datum.
pub trait OnDatum: Placed {
    ghost datum: { List ℕ };

    // The name of its datum.
    fn put_datum(buf: &mut [u8], at: usize) -> usize
        ensures { Wrote buf.old at datum buf.new result };
}

impl<H: Datum> OnDatum for Peak<H> {
    ghost datum = { H.name };

    fn put_datum(buf: &mut [u8], at: usize) -> usize {
        H::put_name(buf, at)
    }
}

impl<H: Datum> OnDatum for Spot<H> {
    ghost datum = { H.name };

    fn put_datum(buf: &mut [u8], at: usize) -> usize {
        H::put_name(buf, at)
    }
}

// A height with its place, behind the name of its datum and these words.
fn put_height<P: OnDatum>(buf: &mut [u8], at: usize, words: &[u8], height: P) -> usize
    ensures { Wrote buf.old at ((P.datum ++ words.now) ++ P.shown height) buf.new result }
{
    let at_words = P::put_datum(buf, at);
    let at_height = put_bytes(buf, at_words, words);
    height.put(buf, at_height)
}

// The highest and then the lowest, behind the name of their datum.
pub(crate) fn put_range<P: OnDatum>(buf: &mut [u8], at: usize, range: Option<Extremes<P>>) -> usize
    ensures { Wrote buf.old at (range_lines (λ words p. words ++ P.shown p) P.datum (range_in range))
        buf.new result }
{
    match range {
        None => {
            let at_none = P::put_datum(buf, at);
            put_bytes(buf, at_none, b" none\n")
        }
        Some(ends) => {
            let next = put_height(buf, at, b" high ", ends.high);
            put_height(buf, next, b" low ", ends.low)
        }
    }
}
