// The readings of document 01 of numbers that are run and not proved, each with its answer number. Then every text of
// up to three bytes, read as a number of each type, in two running sums of what came of it. The Rust's own `str::parse`
// gives the same sums (oracle/numbers). What this writes is held to ../stdout.
#![tactic(auto)]

mod edges;

use gate_say::{decimal, write};
use print::number::{put_i8, put_i16, put_nat};
use text::number::{read_i8, read_i16, read_u8, read_u16};

#[derive(Clone, Copy)]
struct Sums {
    a: u64,
    b: u64,
}

// Behind the characters of h one more.
fn behind(h: u64, c: u8) -> u64 {
    if h < 0x1_0000_0000_0000 {
        h * 256 + c as u64
    } else {
        0
    }
}

// A number by its six characters.
fn spelt(text: [u8; 6]) -> u64 {
    let three = behind(behind(text[5] as u64, text[4]), text[3]);
    behind(behind(behind(three, text[2]), text[1]), text[0])
}

fn unsigned(v: u16) -> u64 {
    let mut text = [b' '; 6];
    put_nat(&mut text, 0, v as u64, 6);
    spelt(text)
}

fn signed(v: i16) -> u64 {
    let mut text = [b' '; 6];
    put_i16(&mut text, 0, v, 6);
    spelt(text)
}

fn short(v: i8) -> u64 {
    let mut text = [b' '; 6];
    put_i8(&mut text, 0, v, 6);
    spelt(text)
}

// 0 for a refusal.
fn code(row: u8, text: &[u8]) -> u64 {
    match row {
        0 => read_u8(text).map_or(0, |v| unsigned(v as u16)),
        1 => read_u16(text).map_or(0, unsigned),
        2 => read_i8(text).map_or(0, short),
        _ => read_i16(text).map_or(0, signed),
    }
}

// The n-th text of three bytes, of which the first `width` count.
fn nth(row: u8, width: usize, n: u64) -> u64 {
    let text = [
        (n % 256) as u8,
        (n / 256 % 256) as u8,
        (n / 65536 % 256) as u8,
    ];
    if width <= 3 {
        return code(row, &text[0..width]);
    }
    0
}

fn all(row: u8, width: usize, end: u64) -> Sums {
    let mut a: u64 = 0;
    let mut b: u64 = 0;
    for n in 0..end {
        a = a.wrapping_add(nth(row, width, n));
        b = b.wrapping_add(a);
    }
    Sums { a, b }
}

fn show(rt: HostRuntime, name: &[u8], row: u8, width: usize, end: u64) {
    let sums = all(row, width, end);
    write(rt, name);
    write(rt, b" ");
    decimal(rt, width as u64);
    write(rt, b" ");
    decimal(rt, sums.a);
    write(rt, b" ");
    decimal(rt, sums.b);
    write(rt, b"\n");
}

fn widths(rt: HostRuntime, name: &[u8], row: u8) {
    show(rt, name, row, 0, 1);
    show(rt, name, row, 1, 256);
    show(rt, name, row, 2, 65536);
    show(rt, name, row, 3, 16777216);
}

fn main(rt: HostRuntime) {
    edges::unsigned(rt);
    edges::signed(rt);
    edges::long(rt);
    edges::printed(rt);
    widths(rt, b"u8", 0);
    widths(rt, b"u16", 1);
    widths(rt, b"i8", 2);
    widths(rt, b"i16", 3);
}
