// Small logs at the edges, with labels: their task sheets, or the number of the refusal.
#![tactic(auto)]

use gate_say::{decimal, write};
use task::print_task;

// The sheet, which is the first of the lent bytes; or the refusal, after which none of them may be altered.
fn say<'a>(rt: HostRuntime, name: &[u8], log: &'a [u8], labels: &'a [u8], text: &mut [u8]) {
    write(rt, name);
    write(rt, b":\n");
    match print_task(log, labels, text) {
        Ok(n) => {
            if n <= text.len() {
                write(rt, &text[0..n]);
            }
        }
        Err(no) => {
            decimal(rt, no.number() as u64);
            write(rt, b"\n`");
            write(rt, text);
            write(rt, b"`\n");
        }
    }
}

fn sheet<'a>(rt: HostRuntime, name: &[u8], log: &'a [u8], labels: &'a [u8]) {
    say(rt, name, log, labels, &mut [b'.'; 128]);
}

fn small<'a>(rt: HostRuntime, name: &[u8], log: &'a [u8], labels: &'a [u8]) {
    say(rt, name, log, labels, &mut [b'.'; 79]);
}

// A zero count: takeoff, start, finish and landing.
fn labels(rt: HostRuntime) {
    let log =
        b"C1503260830121503260001+0\nC4712345N01102500E\nC4718110N01101870EWEST\nC4733120S01125840W\n\
        C0000000N00000000E\n";
    sheet(rt, b"no labels", log, b"");
    sheet(
        rt,
        b"a label for each, the last without LF",
        log,
        b"ONE\nTWO\nTHREE\nFOUR",
    );
    sheet(rt, b"fewer labels", log, b"ONE\n");
    sheet(rt, b"an empty label", log, b"\nTWO\n\nFOUR\nFIVE\n");
    sheet(
        rt,
        b"CR before LF, and elsewhere",
        log,
        b"O\rNE\r\n\r\nTHREE\r\r\nFOUR\r",
    );
    sheet(
        rt,
        b"labels that are not UTF-8",
        log,
        b"\xff\xc3\n\n\x80\n\xfe",
    );
}

fn points(rt: HostRuntime) {
    sheet(
        rt,
        b"one turn, and lines after the landing",
        b"C150326083012150326000101\nC4712345N01102500EA\nC4712345N01102500EB\nC4712345N01102500EC\n\
        C4712345N01102500ED\nC4712345N01102500EE\nC4712345N01102500EF\nLXCS\n",
        b"",
    );
    sheet(
        rt,
        b"the first of two declarations, behind a refused one and a point",
        b"C15032608301215032600010z\nC4712345N01102500E\nC150326083012150326000100\nC4712345N01102500EA\n\
        C4712345N01102500EB\nC4712345N01102500EC\nC4712345N01102500ED\nC150326083012150326000100\n",
        b"",
    );
}

fn refusals(rt: HostRuntime) {
    sheet(rt, b"an empty log", b"", b"ONE\n");
    sheet(
        rt,
        b"points alone",
        b"C4712345N01102500E\nC4712345N01102500E\n",
        b"",
    );
    sheet(
        rt,
        b"a negative count, and no points",
        b"C1503260830121503260001-1\n",
        b"",
    );
    sheet(rt, b"no points", b"C150326083012150326000100\n", b"");
    sheet(
        rt,
        b"a point too few",
        b"C150326083012150326000100\nC4712345N01102500E\nC4712345N01102500E\nC4712345N01102500E\n",
        b"",
    );
    sheet(
        rt,
        b"a refused line between",
        b"C150326083012150326000100\nC4712345N01102500E\nC4712345N01102500\nC4712345N01102500E\n\
        C4712345N01102500E\nC4712345N01102500E\n",
        b"",
    );
    sheet(
        rt,
        b"a second declaration between",
        b"C150326083012150326000100\nC4712345N01102500E\nC150326083012150326000100\nC4712345N01102500E\n\
        C4712345N01102500E\nC4712345N01102500E\nC4712345N01102500E\n",
        b"",
    );
}

// 79 bytes are lent.
fn room(rt: HostRuntime) {
    let log = b"C150326083012150326000100\n\
        C4712345N01102500E\nC4712345N01102500E\nC4712345N01102500E\nC4712345N01102500E\n";
    small(rt, b"just room", log, b"ONE\n");
    small(rt, b"a byte too few", log, b"FOUR\n");
    small(
        rt,
        b"too few points come before too few bytes",
        b"C150326083012150326000101\n\
        C4712345N01102500EA LONG NAME\nC4712345N01102500EA LONG NAME\nC4712345N01102500EA LONG NAME\n",
        b"",
    );
}

fn main(rt: HostRuntime) {
    labels(rt);
    points(rt);
    refusals(rt);
    room(rt);
}
