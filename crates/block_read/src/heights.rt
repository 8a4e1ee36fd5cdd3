// Heights over all logs. Pressure and GPS heights are types apart.
ghost use Rattle.std.specs.Prelude.{◌≤◌, length};
ghost use Rattle.text.specs.Spelt.{spelt};
ghost use Rattle.report.specs.Peak.{range_in};
ghost use Rattle.block_read.specs.Block.{read_height_at, range_by, read_range, read_pressure, read_gps};
ghost use Rattle.block_read.specs.Held.{Came};

use crate::number::{Place, read_spot, read_words};
use b_record::{GpsAlt, Height, PressureAlt};
use report::range::Extremes;
use span::Spot;

#[derive(Clone, Copy)]
struct SpotRead<H> {
    spot: Spot<H>,
    place: Place,
}

#[derive(Clone, Copy)]
pub(crate) struct SpanRead<H> {
    pub span: Option<Extremes<Spot<H>>>,
    pub place: Place,
}

// A height behind its words, with its place.
fn read_height<H: Height>(text: &[u8], from: Place, words: &[u8]) -> SpotRead<H>
    requires { from.at ≤ length text.now }
    ensures { Came text.now from (read_height_at H.at_metres words.now) result.place result.spot }
{
    let read = read_spot(text, from, words);
    SpotRead {
        spot: Spot {
            log: read.log,
            place: read.offset,
            height: H::at(read.height),
        },
        place: read.place,
    }
}

// None, where those words stand; or the highest and then the lowest, each behind its words.
fn read_span<H: Height>(
    text: &[u8],
    from: Place,
    none: &[u8],
    high: &[u8],
    low: &[u8],
) -> SpanRead<H>
    requires { from.at ≤ length text.now }
    ensures { Came text.now from (range_by (read_height_at H.at_metres) none.now high.now low.now)
        result.place (range_in result.span) }
{
    let behind = read_words(text, from, none);
    if behind.good {
        return SpanRead {
            span: None,
            place: behind,
        };
    }
    let highest = read_height(text, from, high);
    let lowest = read_height(text, highest.place, low);
    SpanRead {
        span: Some(Extremes {
            high: highest.spot,
            low: lowest.spot,
        }),
        place: lowest.place,
    }
}

// The pressure heights, by the words of their lines.
pub(crate) fn read_pressure(text: &[u8], from: Place) -> SpanRead<PressureAlt>
    requires { from.at ≤ length text.now }
    ensures { Came text.now from (read_range read_pressure (spelt "pressure")) result.place
        (range_in result.span) }
{
    read_span(
        text,
        from,
        b"pressure none\n",
        b"pressure high ",
        b"pressure low ",
    )
}

// The GPS heights, by the words of theirs.
pub(crate) fn read_gps(text: &[u8], from: Place) -> SpanRead<GpsAlt>
    requires { from.at ≤ length text.now }
    ensures { Came text.now from (read_range read_gps (spelt "gps")) result.place
        (range_in result.span) }
{
    read_span(text, from, b"gps none\n", b"gps high ", b"gps low ")
}
