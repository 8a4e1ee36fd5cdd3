// Finer positions: latitude and longitude of a fix with the digits that its recorder adds to the minutes, by the
// extensions LAD and LOD.
#![tactic(auto)]

ghost use Rattle.std.specs.Prelude.{◌≡◌, ◌^◌, ◌≤◌, ◌<◌, length};
ghost use Rattle.text.specs.Res.{◌∨?◌};
ghost use Rattle.finer.specs.Finer.{thousandths as Finer·thousandths, is_negative_of, toward as Finer·toward};
ghost use Rattle.finer.specs.Finer.{finely as Finer·finely, read_plain_of, read_finer, both as Finer·both};
ghost use Rattle.finer.specs.Finer.{is_undefined_of, position_by_of, finer_position, finer_number, finer_place, Lies};
ghost use Rattle.finer.specs.declared.FinerRefusal.{FinerRefusal};

use b_record::BRecord;
use field::Mnemonic;
use held::tables::Tables;
use part::{InLine, Part};
use position::RawPosition;
use raw_coord::{Compass, RawCoord};
use text::refusal::{Refusal, counted_from};

// A coordinate in whole 10^-(3+n) minutes, negative in the south and the west.
#[derive(Clone, Copy)]
pub struct FinerCoord {
    pub value: i64,
    pub n: u8,
}

// No place that wants a longitude takes it.
#[derive(Clone, Copy)]
pub struct FinerLatitude(pub FinerCoord);

// No place that wants a latitude takes it.
#[derive(Clone, Copy)]
pub struct FinerLongitude(pub FinerCoord);

// Each with its own n.
#[derive(Clone, Copy)]
pub struct FinerPosition {
    pub lat: FinerLatitude,
    pub lon: FinerLongitude,
}

#[derive(Clone, Copy)]
pub enum FinerRefusal {
    // As lookup gives it, or a byte that is not a digit.
    Read(Refusal),
    // An extension of more than five digits.
    TooWide,
}

impl From<Refusal> for FinerRefusal {
    ghost from_gives = { λ n refused. refused ≡ FinerRefusal.Read n };

    fn from(no: Refusal) -> FinerRefusal {
        FinerRefusal::Read(no)
    }
}

impl FinerRefusal {
    // The number that the papers give it.
    pub fn number(self) -> u8
        ensures { result ≡ finer_number self }
    {
        match self {
            FinerRefusal::Read(no) => no.number(),
            FinerRefusal::TooWide => 20,
        }
    }

    // The place of the byte to look at, counted from the line's start, which an unreadable number alone has.
    pub fn place(self) -> Option<usize>
        ensures { result ≡ finer_place self }
    {
        match self {
            FinerRefusal::Read(no) => no.place(),
            FinerRefusal::TooWide => None,
        }
    }
}

// Digits alone, and no sign.
fn read_plain(text: &[u8]) -> Result<u64, Refusal>
    requires { length text.now ≤ 5 }
    ensures { result ≡ read_plain_of text.now }
{
    let mut value: u64 = 0;
    for (i, b) in text.iter().enumerate() {
        if !b.is_ascii_digit() {
            return Err(Refusal::UnreadableNumber(i));
        }
        value = value * 10 + (*b - b'0') as u64;
    }
    Ok(value)
}

// Thousandths of a minute from the equator, or from Greenwich.
#[tactic(auto, unfolding(crate::specs::Finer::thousandths))]
fn thousandths(c: RawCoord) -> u64
    ensures { result ≡ Finer·thousandths c }
{
    c.degrees as u64 * 60000 + c.minute_thousandths as u64
}

// South and west.
fn is_negative(sign: Compass) -> bool
    ensures { result ≡ is_negative_of sign }
{
    matches!(sign, Compass::South | Compass::West)
}

// So many parts of a minute in a direction.
fn toward(sign: Compass, m: u64) -> i64
    requires { m < 10 ^ 13 }
    ensures { result ≡ Finer·toward sign m }
{
    let z = m as i64;
    if is_negative(sign) { -z } else { z }
}

// A coordinate with n digits more, of the value d.
fn finely(n: usize, d: u64, c: RawCoord) -> FinerCoord
    requires { (n ≤ 5) × (d < 10 ^ n) }
    ensures { result ≡ Finer·finely n d c }
{
    // How many of the parts with n digits more make a thousandth.
    let parts = 10u64.pow(n as u32);
    FinerCoord {
        value: toward(c.sign, thousandths(c) * parts + d),
        n: n as u8,
    }
}

// A coordinate with the digits that were found.
fn finer(found: Result<Part, Refusal>, c: RawCoord, line: &[u8]) -> Result<FinerCoord, FinerRefusal>
    requires { Lies found line.now }
    ensures { result ≡ read_finer found c line.now }
{
    let part = found?;
    if 5 < part.len {
        return Err(FinerRefusal::TooWide);
    }
    let digits = counted_from(part.start, read_plain(part.view(line)))?;
    Ok(finely(part.len, digits, c))
}

// Lookup gave 15.
fn is_undefined(found: Result<Part, Refusal>) -> bool
    ensures { result ≡ is_undefined_of found }
{
    found.is_err_and(|no| no.number() == 15)
}

// It gave 15 for either name.
fn is_plain(lad: Result<Part, Refusal>, lod: Result<Part, Refusal>) -> bool
    ensures { result ≡ (is_undefined_of lad ∨? is_undefined_of lod) }
{
    is_undefined(lad) || is_undefined(lod)
}

// Latitude and longitude, each with the digits that were found; the refusal of the latitude comes first.
fn both(
    lad: Result<Part, Refusal>,
    lod: Result<Part, Refusal>,
    pos: RawPosition,
    line: &[u8],
) -> Result<FinerPosition, FinerRefusal>
    requires { Lies lad line.now × Lies lod line.now }
    ensures { result ≡ Finer·both (read_finer lad pos.lat.0 line.now) (read_finer lod pos.lon.0 line.now) }
{
    let lat = finer(lad, pos.lat.0, line)?;
    let lon = finer(lod, pos.lon.0, line)?;
    Ok(FinerPosition {
        lat: FinerLatitude(lat),
        lon: FinerLongitude(lon),
    })
}

// With what lookup gave for LAD and for LOD. Plain thousandths are a coordinate with no digits more.
fn position_by(
    lad: Result<Part, Refusal>,
    lod: Result<Part, Refusal>,
    pos: RawPosition,
    line: &[u8],
) -> Result<FinerPosition, FinerRefusal>
    requires { Lies lad line.now × Lies lod line.now }
    ensures { result ≡ position_by_of lad lod pos.lat.0 pos.lon.0 line.now }
{
    if is_plain(lad, lod) {
        let none = Ok(Part { start: 0, len: 0 });
        return both(none, none, pos, line);
    }
    both(lad, lod, pos, line)
}

impl FinerPosition {
    // The finer position of a fix beside its line, at which these tables are in force.
    pub fn of(fix: BRecord, tables: Tables, line: &[u8]) -> Result<FinerPosition, FinerRefusal>
        ensures { result ≡ finer_position fix tables line.now }
    {
        let held = tables.i;
        let lad = held.find(
            BRecord::BASE_LENGTH,
            fix.rest,
            Mnemonic(b'L', b'A', b'D'),
            line,
        );
        let lod = held.find(
            BRecord::BASE_LENGTH,
            fix.rest,
            Mnemonic(b'L', b'O', b'D'),
            line,
        );
        position_by(lad, lod, fix.pos, line)
    }
}
