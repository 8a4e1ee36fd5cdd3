// Small logs at the edges, listed: what the program `listing` would write of each. The room is fixed, since there is no
// heap.
#![tactic(auto)]

use gate_say::{decimal, write};
use listing_text::listing::print_listing;

fn list(rt: HostRuntime, name: &[u8], log: &[u8]) {
    let mut text = [0u8; 512];
    write(rt, name);
    write(rt, b":\n");
    match print_listing(log, &mut text) {
        Ok(n) => {
            if n <= text.len() {
                write(rt, &text[0..n]);
            }
        }
        Err(no) => {
            decimal(rt, no.number() as u64);
            write(rt, b"\n");
        }
    }
}

fn lines(rt: HostRuntime) {
    list(rt, b"empty", b"");
    list(rt, b"one byte", b"A");
    list(rt, b"one LF", b"\n");
    list(rt, b"only LFs", b"\n\n\n");
    list(rt, b"CR LF", b"I00\r\nHFFTY:\r\n\r\n");
    list(rt, b"a CR alone stays in its line", b"HFFTY:\rI00\nI00\r");
    list(rt, b"one of two CRs is dropped", b"I00\r\r\nI00\n");
    list(rt, b"the last line has no LF", b"I00\nI013638FXA");
    list(
        rt,
        b"bytes that are not UTF-8",
        b"\xff\xfe\n\x80A\nHFFTY:\xc3\n",
    );
}

fn tables(rt: HostRuntime) {
    list(rt, b"a refused I line removes the table", b"I00\nI0\n");
    list(rt, b"an accepted one replaces it", b"I0\nI00\nI00\nJ00\n");
    list(rt, b"a J line does not touch it", b"J00\nJ0\n");
    list(
        rt,
        b"nor does one that is refused, after an I line",
        b"HFFTY:\nI013638FXA\nJ0\n",
    );
}

fn data(rt: HostRuntime) {
    list(
        rt,
        b"K lines are read, and have no heights",
        b"J010810WSP\nK10153004512\nK10153\n",
    );
}

fn letters(rt: HostRuntime) {
    list(rt, b"first bytes about A to Z", b"@\nA\nZ\n[\na\n");
    list(
        rt,
        b"heights of both signs",
        b"B1015304712345N01102500EA-012312345\nB1015304712345N01102500EV00000-0001\n",
    );
}

fn main(rt: HostRuntime) {
    lines(rt);
    tables(rt);
    data(rt);
    letters(rt);
}
