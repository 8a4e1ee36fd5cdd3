// Satellites, in sets built by hand.
use gate_say::{decimal, write};
use satellites::Satellites;

// How many numbers are in a set, and whether one is.
fn set(rt: HostRuntime, low: u64, high: u64, n: u8) {
    let heard = Satellites { low, high };
    write(rt, b"set ");
    decimal(rt, heard.count() as u64);
    if heard.has(n) {
        write(rt, b" with ");
    } else {
        write(rt, b" without ");
    }
    decimal(rt, n as u64);
    write(rt, b"\n");
}

// Sets built by hand, with bits past 99 too.
pub fn sets(rt: HostRuntime) {
    set(rt, 0, 0, 0);
    set(rt, 1, 0, 0);
    set(rt, 0x8000000000000000, 1, 63);
    set(rt, 0x8000000000000000, 1, 64);
    set(rt, 0, 0x8000000000000000, 127);
    set(rt, 0xffffffffffffffff, 0xffffffffffffffff, 128);
    set(rt, 0xffffffffffffffff, 0xffffffffffffffff, 100);
}
