// Numbers put into lent bytes, padded with zeros.
ghost use Rattle.std.specs.Prelude.{◌≡◌, replicate};
ghost use Rattle.text.specs.Number.{digits, places_of, padded, signed};
ghost use Rattle.put.specs.Put.{Wrote};
ghost use Rattle.print.specs.Signed.{split_of};

use put::{after, put_byte};

// k zeros. It ends with the buffer, however many are asked for.
fn put_zeros(buf: &mut [u8], at: usize, k: usize) -> usize
    ensures { Wrote buf.old at (replicate k 48) buf.new result }
{
    let mut next = at;
    for j in 0..k {
        if buf.len() <= next {
            return after(next, k - j);
        }
        next = put_byte(buf, next, b'0');
    }
    next
}

// How many decimal digits n has.
fn places(n: u64) -> usize
    ensures { result ≡ places_of n }
{
    let mut k: usize = 1;
    let mut rest = n;
    while rest >= 10 {
        rest /= 10;
        k += 1;
    }
    k
}

// The last k digits of n.
fn put_digits(buf: &mut [u8], at: usize, n: u64, k: usize) -> usize
    ensures { Wrote buf.old at (digits k n) buf.new result }
{
    if buf.len() <= at {
        return after(at, k);
    }
    let mut rest = n;
    for i in (0..k).rev() {
        put_byte(buf, after(at, i), b'0' + (rest % 10) as u8);
        rest /= 10;
    }
    after(at, k)
}

// A number from 0 up, padded with zeros to the width.
pub fn put_nat(buf: &mut [u8], at: usize, n: u64, width: usize) -> usize
    ensures { Wrote buf.old at (padded width n) buf.new result }
{
    let k = places(n);
    let next = put_zeros(buf, at, width.saturating_sub(k));
    put_digits(buf, next, n, k)
}

// A signed number by its sign and its distance from 0.
#[derive(Clone, Copy, PartialEq, Eq, Debug)]
enum Signed {
    Plus(u64),
    Minus(u64),
}

fn split(z: i64) -> Signed
    ensures { result ≡ split_of z }
{
    if z < 0 {
        Signed::Minus((-(z + 1)) as u64 + 1)
    } else {
        Signed::Plus(z as u64)
    }
}

// A number of either sign, padded with zeros to the width, a minus counted in it.
pub fn put_int(buf: &mut [u8], at: usize, z: i64, width: usize) -> usize
    ensures { Wrote buf.old at (signed width z) buf.new result }
{
    match split(z) {
        Signed::Plus(n) => put_nat(buf, at, n, width),
        Signed::Minus(n) => {
            let next = put_byte(buf, at, b'-');
            put_nat(buf, next, n, width.saturating_sub(1))
        }
    }
}

// The same of 16 bits.
pub fn put_i16(buf: &mut [u8], at: usize, z: i16, width: usize) -> usize
    ensures { Wrote buf.old at (signed width z) buf.new result }
{
    let from_i16 = z as i64;
    put_int(buf, at, from_i16, width)
}

// The same of 8 bits.
pub fn put_i8(buf: &mut [u8], at: usize, z: i8, width: usize) -> usize
    ensures { Wrote buf.old at (signed width z) buf.new result }
{
    let from_i8 = z as i64;
    put_int(buf, at, from_i8, width)
}
