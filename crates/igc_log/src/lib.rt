// The lines of a log: where they end, and each as a part of the log.
#![tactic(auto)]

ghost use Rattle.std.specs.Prelude.{◌≡◌, ◌+◌, ◌≤◌, ◌<◌, length, drop};
ghost use Rattle.part.specs.Part.{find_part, shown, Shows};
ghost use Rattle.igc_log.specs.Line.{up_to, has_lf_of, end_of, cut_at};

use part::{InLine, Part};

// A line as a part of the log, and the place after it.
#[derive(Clone, Copy)]
pub struct Cut {
    pub line: Part,
    pub next: usize,
}

// The place of the first LF from `at` on, or the log's end: byte by byte.
fn lf_tail(log: &[u8], at: usize) -> usize
    requires { at ≤ length log.now }
    ensures { result ≡ at + up_to (drop at log.now) }
{
    for i in at..log.len() {
        if log[i] == b'\n' {
            return i;
        }
    }
    log.len()
}

// Some byte is an LF. With no way out of the loop but its end the compiler tests a block at once.
fn has_lf(block: &[u8]) -> bool
    ensures { result ≡ has_lf_of block.now }
{
    let mut any = false;
    for b in block {
        if *b == b'\n' {
            any = true;
        }
    }
    any
}

// The place of the first LF among eight bytes that have one.
fn lf_near(log: &[u8], from: usize) -> usize
    requires { (from + 8 ≤ length log.now) × (up_to (drop from log.now) < 8) }
    ensures { result ≡ from + up_to (drop from log.now) }
{
    if log[from] == b'\n' {
        return from;
    }
    if log[from + 1] == b'\n' {
        return from + 1;
    }
    if log[from + 2] == b'\n' {
        return from + 2;
    }
    if log[from + 3] == b'\n' {
        return from + 3;
    }
    if log[from + 4] == b'\n' {
        return from + 4;
    }
    if log[from + 5] == b'\n' {
        return from + 5;
    }
    if log[from + 6] == b'\n' {
        return from + 6;
    }
    from + 7
}

// The same place, faster: a block of sixteen bytes a turn. Past the log's end nothing is left, and it cannot be
// counted.
fn lf_from(log: &[u8], at: usize) -> usize
    ensures { result ≡ at + up_to (drop at log.now) }
{
    if log.len() < at {
        return at;
    }
    let mut from = at;
    while 16 <= log.len() - from {
        let half = from + 8;
        let to = from + 16;
        if has_lf(&log[from..to]) {
            if has_lf(&log[from..half]) {
                return lf_near(log, from);
            }
            return lf_near(log, half);
        }
        from = to;
    }
    lf_tail(log, from)
}

// Where the text of a line ends whose first LF is at `lf`: a CR directly before that LF is dropped, and only there.
fn text_end(log: &[u8], at: usize, lf: usize) -> usize
    requires { (at ≤ lf) × (lf < length log.now) }
    ensures { result ≡ end_of at lf log.now }
{
    if at < lf {
        if log[lf - 1] == b'\r' {
            return lf - 1;
        }
    }
    lf
}

// The line that begins at a place; past the log's end it is empty.
pub fn cut_at(log: &[u8], at: usize) -> Cut
    ensures { result ≡ cut_at at log.now }
{
    let lf = lf_from(log, at);
    if lf < log.len() {
        let end = text_end(log, at, lf);
        return Cut {
            line: Part {
                start: at,
                len: end - at,
            },
            next: lf + 1,
        };
    }
    Cut {
        line: Part {
            start: at,
            len: lf - at,
        },
        next: lf,
    }
}

// The text of that line, as a part of the caller's own log.
pub fn line_at(log: &[u8], at: usize) -> &[u8]
    ensures { Shows log.entry (shown (find_part (cut_at at log.now).line log.now)) result }
{
    let part = cut_at(log, at).line;
    part.view(log)
}
