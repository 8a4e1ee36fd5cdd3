// "Numbers as text" and the edges of heights and counts.
use gate_say as say;
use part::Part;
use print::number::{put_i8, put_i16, put_nat};
use print::printed::{print_int, print_part};
use text::number::{read_i8, read_i16, read_u8, read_u16};
use text::refusal::Refusal;

// A number as it is written: an array with its length, since there is no heap.
#[derive(Clone, Copy)]
struct Written {
    bytes: [u8; 8],
    len: usize,
}

fn nat(v: u64) -> Written {
    let mut bytes = [0u8; 8];
    let len = put_nat(&mut bytes, 0, v, 0);
    Written { bytes, len }
}

fn short(v: i8) -> Written {
    let mut bytes = [0u8; 8];
    let len = put_i8(&mut bytes, 0, v, 0);
    Written { bytes, len }
}

fn integer(v: i16) -> Written {
    let mut bytes = [0u8; 8];
    let len = put_i16(&mut bytes, 0, v, 0);
    Written { bytes, len }
}

fn answer(rt: HostRuntime, name: &[u8], text: &[u8], read: Result<Written, Refusal>) {
    say::asked(rt, name, text);
    match read {
        Ok(written) => say::accepted(rt, &written.bytes, written.len),
        Err(no) => say::refused(rt, no),
    }
}

fn of_u8(rt: HostRuntime, text: &[u8]) {
    answer(rt, b"u8", text, read_u8(text).map(|v| nat(v as u64)));
}

fn of_u16(rt: HostRuntime, text: &[u8]) {
    answer(rt, b"u16", text, read_u16(text).map(|v| nat(v as u64)));
}

fn of_i8(rt: HostRuntime, text: &[u8]) {
    answer(rt, b"i8", text, read_i8(text).map(short));
}

fn of_i16(rt: HostRuntime, text: &[u8]) {
    answer(rt, b"i16", text, read_i16(text).map(integer));
}

// Numbers without a sign.
pub fn unsigned(rt: HostRuntime) {
    of_u8(rt, b"");
    of_u8(rt, b"+");
    of_u8(rt, b"-1");
    of_u8(rt, b"-0");
    of_u8(rt, b"00");
    of_u8(rt, b"+7");
    of_u8(rt, b"++7");
    of_u8(rt, b"255");
    of_u8(rt, b"256");
    of_u8(rt, b"+x");
    of_u8(rt, b"-5");
    of_u8(rt, b"99x99");
    of_u8(rt, b"+99x99");
    of_u8(rt, b"2 ");
    of_u8(rt, b"/0");
    of_u8(rt, b":0");
    of_u16(rt, b"60000");
    of_u16(rt, b"65535");
    of_u16(rt, b"65536");
    of_u16(rt, b"+0204");
}

// Numbers with a sign.
pub fn signed(rt: HostRuntime) {
    of_i8(rt, b"-0");
    of_i8(rt, b"04");
    of_i8(rt, b"-1");
    of_i8(rt, b"-128");
    of_i8(rt, b"-129");
    of_i8(rt, b"-x");
    of_i8(rt, b"--1");
    of_i8(rt, b"-999x");
    of_i8(rt, b"127");
    of_i8(rt, b"128");
    of_i16(rt, b"");
    of_i16(rt, b"-");
    of_i16(rt, b"+");
    of_i16(rt, b"+-1");
    of_i16(rt, b"+0012");
    of_i16(rt, b"-0042");
    of_i16(rt, b"32767");
    of_i16(rt, b"32768");
    of_i16(rt, b"-32768");
    of_i16(rt, b"-32769");
    of_i16(rt, b"x1561");
    of_i16(rt, b"01\xc3\xa91");
}

// Ten thousand digits: leading zeros are fine, nothing wraps, and a letter behind digits of too large a value is
// pointed at.
pub fn long(rt: HostRuntime) {
    let mut text = [b'0'; 10000];
    text[9999] = b'7';
    long_case(rt, &text);
    text[0] = b'9';
    long_case(rt, &text);
    text[9999] = b'x';
    long_case(rt, &text);
}

fn long_case(rt: HostRuntime, text: &[u8]) {
    answer(
        rt,
        b"i16",
        b"ten thousand digits",
        read_i16(text).map(integer),
    );
}

fn put(rt: HostRuntime, z: i64, width: usize) {
    let mut buf = [b'.'; 8];
    let p = print_int(z, width, &mut buf);
    say::printed(rt, p, &buf);
}

// Numbers printed in a width.
pub fn printed(rt: HostRuntime) {
    put(rt, -42, 5);
    put(rt, 12, 5);
    put(rt, 0, 5);
    put(rt, 5, 2);
    put(rt, 123, 2);
    put(rt, -5, 0);
    put(rt, -32768, 5);
    put(rt, 1, 8);
    put(rt, 1, 9);
    put(rt, 7, 0xffff_ffff_ffff_ffff);
    parts(rt, 2, 3);
    parts(rt, 6, 0);
    parts(rt, 6, 1);
    parts(rt, 0xffff_ffff_ffff_ffff, 2);
    parts(rt, 2, 0xffff_ffff_ffff_ffff);
}

// A part of a line of six bytes, into a buffer of four.
fn parts(rt: HostRuntime, start: usize, len: usize) {
    let mut buf = [b'.'; 4];
    let p = print_part(
        Part {
            start: start,
            len: len,
        },
        b"ABCDEF",
        &mut buf,
    );
    say::printed(rt, p, &buf);
}
