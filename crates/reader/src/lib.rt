// The lent log with the walk's place and line number, for the desk: thin, over functions with plain parameters.
#![tactic(auto)]

ghost use Rattle.std.specs.Prelude.{◌≡◌};
ghost use Rattle.part.specs.Part.{Shows};
ghost use Rattle.held.specs.Tables.{tables_after};
ghost use Rattle.cursor.specs.Cursor.{start, next_of};
ghost use Rattle.reader.specs.Reader.{reader_at, cursor_of, part_at, text_at};

use cursor::Cursor;
use held::tables::Tables;
use igc_log::{Cut, line_at};

#[derive(Clone, Copy)]
pub struct LogReader<'a> {
    pub log: &'a [u8],
    pub place: usize,
    pub number: u64,
}

// ---- the work, over plain parameters

// The line at a place, and the cursor after it.
pub fn next_at(log: &[u8], place: usize, number: u64) -> Option<(Cut, Cursor)>
    ensures { result ≡ next_of log.now (record { place = place; number = number }) }
{
    let at = Cursor { place, number };
    at.next(log)
}

// What is held after that line: I and J lines set or spoil their tables.
pub fn tables_at(log: &[u8], place: usize, held: Tables) -> Tables
    ensures { result ≡ tables_after held (text_at place log.now) }
{
    let line = line_at(log, place);
    held.after(line)
}

// ---- the reader

// At the log's start, with no line read.
#[tactic(auto, unfolding(cursor::specs::Cursor::start))]
pub fn open<'a>(log: &'a [u8]) -> LogReader<'a>
    ensures { result ≡ reader_at log.entry start }
{
    LogReader {
        log,
        place: 0,
        number: 0,
    }
}

// The same log at another place: `at` is what the last line handed out, or one that the caller kept.
pub fn moved<'a>(r: LogReader<'a>, at: Cursor) -> LogReader<'a>
    ensures { result ≡ reader_at r.entry.log at }
{
    LogReader {
        log: r.log,
        place: at.place,
        number: at.number,
    }
}

// Reads the line at the place.
pub fn next_line<'a>(r: LogReader<'a>) -> Option<(Cut, Cursor)>
    ensures { result ≡ next_of r.entry.log.now (cursor_of r.entry) }
{
    next_at(r.log, r.place, r.number)
}

// The line at the place, as a part of the lent log.
pub fn line<'a>(r: LogReader<'a>) -> &'a [u8]
    ensures { Shows r.entry.log (part_at r.entry.place r.entry.log.now) result }
{
    line_at(r.log, r.place)
}

// What is held after the line at the place.
pub fn tables<'a>(r: LogReader<'a>, held: Tables) -> Tables
    ensures { result ≡ tables_after held (text_at r.entry.place r.entry.log.now) }
{
    tables_at(r.log, r.place, held)
}
