// A log watched, in pieces: a line wherever the running summit of a datum rises goes into lent bytes, and what is
// carried goes on to the next piece.
#![tactic(auto)]

ghost use Rattle.std.specs.Prelude.{◌≡◌, true, ◌+◌, ◌≤◌, ◌<◌, length};
ghost use Rattle.text.specs.Word.{largest};
ghost use Rattle.put.specs.Put.{Wrote};
ghost use Rattle.igc_log.specs.Fold.{past_line};
ghost use Rattle.watch_text.specs.Watch.{watcher, watch_line};
ghost use Rattle.watch_text.specs.Feed.{running_in, no_step, view, at_first_of, is_ready_of, WatchedOf, Watches};

use b_record::{GpsAlt, PressureAlt};
use cursor::Cursor;
use igc_log::cut_at;
use part::InLine;
use records::Record;
use report::Report;
use rise_text::{put_rise, rise};

// What goes from piece to piece: the report so far, where it stands, and the heights that the last line rose to.
#[derive(Clone, Copy)]
pub struct Watch {
    pub report: Report,
    pub at: Cursor,
    pub pressure: Option<PressureAlt>,
    pub gps: Option<GpsAlt>,
}

// What is carried on, how many bytes of the piece were taken, and where the text of their lines ends.
#[derive(Clone, Copy)]
pub struct Watched {
    pub watch: Watch,
    pub taken: usize,
    pub end: usize,
}

impl Watch {
    // Before the first piece.
    pub fn new() -> Watch
        ensures { view result ≡ at_first_of }
    {
        Watch {
            report: Report::new(),
            at: Cursor::new(),
            pressure: None,
            gps: None,
        }
    }

    // After a line more, which takes so many bytes.
    fn after(self, line: &[u8], width: usize) -> Watch
        requires { (self.at.place + width ≤ largest) × (self.at.number < largest) }
        ensures { view result ≡ past_line watcher no_step (view self) line.now width }
    {
        let before = self.report;
        let report = before.after(self.at.place as u64, Record::parse_line(line));
        Watch {
            report,
            at: Cursor {
                place: self.at.place + width,
                number: self.at.number + 1,
            },
            pressure: rise(before.pressure, report.pressure),
            gps: rise(before.gps, report.gps),
        }
    }

    // What the last line raised, the pressure first.
    fn put(self, buf: &mut [u8], at: usize) -> usize
        ensures { Wrote buf.old at (watch_line self.at.number (running_in self))
            buf.new result }
    {
        let at_gps = put_rise(buf, at, self.at.number, self.pressure);
        put_rise(buf, at_gps, self.at.number, self.gps)
    }

    // Neither the place nor the number passes 64 bits over n bytes more.
    fn is_ready(self, n: usize) -> bool
        ensures { result ≡ is_ready_of (view self) n }
    {
        if usize::MAX - self.at.place < n {
            return false;
        }
        n as u64 <= u64::MAX - self.at.number
    }
}

// Lines are taken while their text has room.
fn put_ready(w: Watch, lines: &[u8], buf: &mut [u8]) -> Watched
    requires { is_ready_of (view w) (length lines.now) ≡ true }
    ensures { WatchedOf true w lines.now buf.old buf.new result }
{
    let mut watch = w;
    let mut taken = 0;
    let mut end = 0;
    // A `while`, since it steps by what a line takes.
    while taken < lines.len() {
        let cut = cut_at(lines, taken);
        let line = cut.line.view(lines);
        let after = watch.after(line, cut.next - taken);
        let to = after.put(buf, end);
        if buf.len() < to {
            return Watched { watch, taken, end };
        }
        watch = after;
        taken = cut.next;
        end = to;
    }
    Watched { watch, taken, end }
}

// The lines that come next: `lines` are the bytes of the log from where the watch stands, or as many of them as are at
// hand, and then whole lines.
pub fn put_lines(w: Watch, lines: &[u8], buf: &mut [u8]) -> Watched
    ensures { Watches w lines.now buf.old buf.new result }
{
    if w.is_ready(lines.len()) {
        return put_ready(w, lines, buf);
    }
    Watched {
        watch: w,
        taken: 0,
        end: 0,
    }
}
