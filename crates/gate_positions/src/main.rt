// Finer positions of fixes, parts and tables built by hand, as no walk hands them out.
#![tactic(auto)]

use b_record::{BRecord, FixValid, GpsAlt, PressureAlt};
use coord::{RawLatitude, RawLongitude};
use extension::Extension;
use field::Mnemonic;
use gate_say::write;
use held::Held;
use held::tables::Tables;
use part::Part;
use position::RawPosition;
use positions_text::put_line;
use raw_coord::{Compass, RawCoord};
use records::Record;
use table::Table;
use time::Time;

// As much of either coordinate as its fields hold.
fn largest(sign: Compass) -> RawCoord {
    RawCoord {
        minute_thousandths: 0xffff,
        degrees: 255,
        sign,
    }
}

fn fix(lat: Compass, lon: Compass, start: usize, len: usize) -> BRecord {
    BRecord {
        rest: Part { start, len },
        pos: RawPosition {
            lat: RawLatitude(largest(lat)),
            lon: RawLongitude(largest(lon)),
        },
        pressure_alt: PressureAlt(0),
        gps_alt: GpsAlt(0),
        timestamp: Time {
            hours: 0,
            minutes: 0,
            seconds: 0,
        },
        fix_valid: FixValid::NavWarning,
    }
}

// The table whose definition of LAD is from column a to b and of LOD from c to d, where that many count.
fn named(count: u8, a: u8, b: u8, c: u8, d: u8) -> Held {
    let mut table = Table::new();
    table.defs[0] = Extension {
        mnemonic: Mnemonic(b'L', b'A', b'D'),
        start_byte: a,
        end_byte: b,
    };
    table.defs[1] = Extension {
        mnemonic: Mnemonic(b'L', b'O', b'D'),
        start_byte: c,
        end_byte: d,
    };
    table.count = count;
    Held::Set(table)
}

// A fix by the table of an I line, in a room of fixed size, since there is no heap.
fn say(rt: HostRuntime, what: &[u8], fix: BRecord, i: Held) {
    let mut text = [0u8; 64];
    let tables = Tables { i, j: Held::new() };
    let n = put_line(&mut text, 0, 1, b"99999000001+", Ok(Record::B(fix)), tables);
    write(rt, what);
    write(rt, b": ");
    if n <= 64 {
        write(rt, &text[0..n]);
    }
}

// Of the rest, from the line's start on.
fn in_the_rest(rt: HostRuntime) {
    let there = fix(Compass::South, Compass::West, 0, 12);
    say(rt, b"the largest", there, named(2, 36, 40, 41, 45));
    let across = fix(Compass::West, Compass::North, 0, 12);
    say(rt, b"across", across, named(2, 36, 36, 41, 42));
    say(rt, b"a sign", there, named(2, 36, 40, 46, 47));
    say(rt, b"ends first", there, named(2, 40, 36, 41, 45));
    say(rt, b"starts at 0", there, named(2, 36, 40, 0, 45));
    say(rt, b"wide", there, named(2, 36, 47, 41, 45));
    say(
        rt,
        b"wide and past the rest",
        there,
        named(2, 36, 255, 41, 45),
    );
    say(rt, b"100 definitions", there, named(100, 36, 40, 41, 45));
    say(rt, b"one definition", there, named(1, 36, 40, 41, 45));
    say(rt, b"spoiled", there, Held::Spoiled);
    say(rt, b"never", there, Held::Never);
}

// Of a rest that lies outside the line.
fn outside(rt: HostRuntime) {
    let past = fix(Compass::North, Compass::East, 1, 12);
    say(rt, b"outside", past, named(2, 36, 255, 0, 0));
    say(
        rt,
        b"outside, one definition",
        past,
        named(1, 36, 255, 0, 0),
    );
    let far = fix(Compass::North, Compass::East, 0xffff_ffff_ffff_ffff, 2);
    say(rt, b"at the largest place", far, named(2, 36, 40, 41, 45));
}

fn main(rt: HostRuntime) {
    in_the_rest(rt);
    outside(rt);
}
