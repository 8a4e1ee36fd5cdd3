// Every coordinate of 0 to 180 degrees and 0 to 60000 thousandths as a float, in two running sums of the bits. The
// Rust's own conversions give the same sums (oracle/floats); what this writes is held to them in ../stdout.
#![tactic(auto)]

use coord::{Axis, RawLatitude, RawLongitude};
use gate_say::{decimal, write};
use raw_coord::{Compass, RawCoord};

#[derive(Clone, Copy)]
struct Sums {
    a: u64,
    b: u64,
}

// No conversion gives a NaN, whose bits could not be read.
fn bits32(x: f32) -> u32 {
    if x.is_nan() { 0 } else { x.to_bits() }
}

fn bits64(x: f64) -> u64 {
    if x.is_nan() { 0 } else { x.to_bits() }
}

fn bits(row: u8, degrees: u8, minute_thousandths: u16, sign: Compass) -> u64 {
    let coord = RawCoord {
        minute_thousandths,
        degrees,
        sign,
    };
    match row {
        0 => bits32(RawLatitude(coord).to_f32()) as u64,
        1 => bits32(RawLongitude(coord).to_f32()) as u64,
        2 => bits32(coord.to_f32()) as u64,
        3 => bits64(RawLatitude(coord).to_f64()),
        4 => bits64(RawLongitude(coord).to_f64()),
        _ => bits64(coord.to_f64()),
    }
}

fn one_degree(row: u8, degrees: u8, sign: Compass, sums: Sums) -> Sums {
    let mut a = sums.a;
    let mut b = sums.b;
    for t in 0..=60000 {
        a = a.wrapping_add(bits(row, degrees, t, sign));
        b = b.wrapping_add(a);
    }
    Sums { a, b }
}

fn all_degrees(row: u8, sign: Compass) -> Sums {
    let mut sums = Sums { a: 0, b: 0 };
    for degrees in 0..=180 {
        sums = one_degree(row, degrees, sign, sums);
    }
    sums
}

fn show(rt: HostRuntime, name: &[u8], row: u8, sign: Compass) {
    let sums = all_degrees(row, sign);
    write(rt, name);
    write(rt, b" ");
    decimal(rt, sums.a);
    write(rt, b" ");
    decimal(rt, sums.b);
    write(rt, b"\n");
}

fn main(rt: HostRuntime) {
    show(rt, b"f32 N", 0, Compass::North);
    show(rt, b"f32 S", 0, Compass::South);
    show(rt, b"f32 E", 1, Compass::East);
    show(rt, b"f32 W", 2, Compass::West);
    show(rt, b"f64 N", 3, Compass::North);
    show(rt, b"f64 S", 3, Compass::South);
    show(rt, b"f64 E", 4, Compass::East);
    show(rt, b"f64 W", 5, Compass::West);
}
