// The finer positions of a log as text, a line for each accepted fix.
#![tactic(auto)]

ghost use Rattle.put.specs.Put.{Wrote};
ghost use Rattle.positions_text.specs.Positions.{coord_shown, latitude_shown, longitude_shown, place_shown};
ghost use Rattle.positions_text.specs.Positions.{refusal_shown, position_shown, fix_shown, positions_line};

use b_record::BRecord;
use finer::{FinerCoord, FinerLatitude, FinerLongitude, FinerPosition, FinerRefusal};
use held::tables::Tables;
use print::number::{put_int, put_nat};
use put::put_byte;
use records::{Reading, fix_in};

// The number and its n, each behind a space.
fn put_coord(buf: &mut [u8], at: usize, coord: FinerCoord) -> usize
    ensures { Wrote buf.old at (coord_shown coord) buf.new result }
{
    let at_value = put_byte(buf, at, b' ');
    let at_space = put_int(buf, at_value, coord.value, 1);
    let at_n = put_byte(buf, at_space, b' ');
    put_nat(buf, at_n, coord.n as u64, 1)
}

// The one place where the number of a latitude comes out.
fn put_latitude(buf: &mut [u8], at: usize, lat: FinerLatitude) -> usize
    ensures { Wrote buf.old at (latitude_shown lat) buf.new result }
{
    put_coord(buf, at, lat.0)
}

// The one place where the number of a longitude comes out.
fn put_longitude(buf: &mut [u8], at: usize, lon: FinerLongitude) -> usize
    ensures { Wrote buf.old at (longitude_shown lon) buf.new result }
{
    put_coord(buf, at, lon.0)
}

// `@` and the place of the byte to look at.
#[tactic(auto, using(put::proofs::Writing::wrote_nothing), unfolding(crate::specs::Positions::place_shown, text::specs::Res::placed))]
fn put_place(buf: &mut [u8], at: usize, place: Option<usize>) -> usize
    ensures { Wrote buf.old at (place_shown place) buf.new result }
{
    match place {
        Some(k) => {
            let at_place = put_byte(buf, at, b'@');
            put_nat(buf, at_place, k as u64, 1)
        }
        None => at,
    }
}

// The number of a refusal, and its place.
fn put_refusal(buf: &mut [u8], at: usize, no: FinerRefusal) -> usize
    ensures { Wrote buf.old at (refusal_shown no) buf.new result }
{
    let at_number = put_byte(buf, at, b' ');
    let at_place = put_nat(buf, at_number, no.number() as u64, 1);
    put_place(buf, at_place, no.place())
}

// Latitude and then longitude, or the refusal.
fn put_position(buf: &mut [u8], at: usize, read: Result<FinerPosition, FinerRefusal>) -> usize
    ensures { Wrote buf.old at (position_shown read) buf.new result }
{
    match read {
        Ok(position) => {
            let at_lon = put_latitude(buf, at, position.lat);
            put_longitude(buf, at_lon, position.lon)
        }
        Err(no) => put_refusal(buf, at, no),
    }
}

// The line of a fix.
fn put_fix(buf: &mut [u8], at: usize, number: u64, line: &[u8], held: Tables, fix: BRecord) -> usize
    ensures { Wrote buf.old at (fix_shown number line.now held fix) buf.new result }
{
    let read = FinerPosition::of(fix, held, line);
    let at_position = put_nat(buf, at, number, 1);
    let at_end = put_position(buf, at_position, read);
    put_byte(buf, at_end, b'\n')
}

// The line with this number, as it was read, at which `held` is in force: nothing where it is no accepted fix.
#[tactic(auto, using(put::proofs::Writing::wrote_nothing), unfolding(crate::specs::Positions::positions_line, crate::specs::Positions::maybe_shown))]
pub fn put_line(
    buf: &mut [u8],
    at: usize,
    number: u64,
    line: &[u8],
    reading: Reading,
    held: Tables,
) -> usize
    ensures { Wrote buf.old at (positions_line number line.now reading held) buf.new result }
{
    match fix_in(reading) {
        Some(fix) => put_fix(buf, at, number, line, held, fix),
        None => at,
    }
}
