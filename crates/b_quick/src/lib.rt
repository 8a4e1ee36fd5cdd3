// B lines whose numbers are plain digits, as nearly all are: tested in blocks and read without a test at each byte.
// Where this way says no, nothing is said, and `BRecord::parse` decides.
#![tactic(auto)]

ghost use Rattle.std.specs.Prelude.{◌≡◌, None, true, ◌≤◌, length};
ghost use Rattle.text.specs.Res.{pick};
ghost use Rattle.text.specs.Number.{all_digits_of, value_from};
ghost use Rattle.field.specs.Field.{is_ascii_of};
ghost use Rattle.b_record.specs.BRecord.{read_fix};
ghost use Rattle.b_quick.specs.Quick.{plain_digits, fix_read, quick_of};

use b_record::{BRecord, FixValid, GpsAlt, PressureAlt};
use coord::{Axis, RawLatitude, RawLongitude};
use field::{all_digits, is_ascii};
use part::Part;
use position::RawPosition;
use time::Time;

// Every column of a number is a digit. Blocks of eight columns, some of them twice: the compiler makes one test of each
// block.
fn plain(line: &[u8]) -> bool
    requires { 35 ≤ length line.now }
    ensures { result ≡ plain_digits line.now }
{
    if !all_digits(&line[1..9]) {
        return false;
    }
    if !all_digits(&line[6..14]) {
        return false;
    }
    if !all_digits(&line[15..23]) {
        return false;
    }
    if !all_digits(&line[25..33]) {
        return false;
    }
    all_digits(&line[27..35])
}

// The value of digits.
fn value(digits: &[u8]) -> u32
    requires { (all_digits_of digits.now ≡ true) × (length digits.now ≤ 5) }
    ensures { result ≡ value_from 0 digits.now }
{
    let mut v: u32 = 0;
    for d in digits {
        v = v * 10 + (*d - b'0') as u32;
    }
    v
}

// What `quick_fix` says of a line that is long enough and ASCII.
fn plain_fix(line: &[u8]) -> Option<BRecord>
    requires { (35 ≤ length line.now) × (is_ascii_of line.now ≡ true) }
    ensures { result ≡ pick (plain_digits line.now) (fix_read (read_fix line.now)) None }
{
    if !plain(line) {
        return None;
    }
    let lat_minutes = value(&line[9..14]);
    let lon_degrees = value(&line[15..18]);
    let lon_minutes = value(&line[18..23]);
    let pressure = value(&line[25..30]);
    let gps = value(&line[30..35]);
    if 65535 < lat_minutes {
        return None;
    }
    if 255 < lon_degrees {
        return None;
    }
    if 65535 < lon_minutes {
        return None;
    }
    if 32767 < pressure {
        return None;
    }
    if 32767 < gps {
        return None;
    }
    let hours = value(&line[1..3]) as u8;
    let minutes = value(&line[3..5]) as u8;
    let seconds = value(&line[5..7]) as u8;
    let timestamp = Time::from_hms(hours, minutes, seconds).ok()?;
    let lat_degrees = value(&line[7..9]) as u8;
    let lat = RawLatitude::lettered(lat_degrees, lat_minutes as u16, line[14]).ok()?;
    let lon = RawLongitude::lettered(lon_degrees as u8, lon_minutes as u16, line[23]).ok()?;
    let fix_valid = FixValid::from_letter(line[24]).ok()?;
    Some(BRecord {
        rest: Part::from_column(BRecord::BASE_LENGTH, line),
        pos: RawPosition { lat, lon },
        pressure_alt: PressureAlt(pressure as i16),
        gps_alt: GpsAlt(gps as i16),
        timestamp,
        fix_valid,
    })
}

// A fix of plain digits, read without a test at each byte; None where that way says nothing, and `BRecord::parse`
// decides.
pub fn quick_fix(line: &[u8]) -> Option<BRecord>
    ensures { result ≡ quick_of line.now }
{
    if line.len() < BRecord::BASE_LENGTH {
        return None;
    }
    if !is_ascii(line) {
        return None;
    }
    plain_fix(line)
}
