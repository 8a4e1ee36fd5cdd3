// A whole line of the program's text.
ghost use Rattle.put.specs.Put.{Wrote};
ghost use Rattle.record_print.specs.Printed.{record_piece};
ghost use Rattle.fields_text.specs.Line.{book_shown, printed_shown, seen, place_shown, fields_shown, fields_line};

use held::tables::Tables;
use listing_text::put_head;
use piece_text::piece::show_byte;
use print::number::put_nat;
use put::put_byte;
use record_print::put_record;
use record_text::record::show_record;
use records::{Reading, Record};
use table::Table;
use text::refusal::Refusal;

// `y` or `n` for by the book; nothing of a line that is not read.
fn put_book(buf: &mut [u8], at: usize, rec: Record) -> usize
    ensures { Wrote buf.old at (book_shown rec) buf.new result }
{
    if rec.number() != 0 {
        return at;
    }
    if rec.by_the_book() {
        return show_byte(buf, at, b'y');
    }
    show_byte(buf, at, b'n')
}

// The record as printed, behind ` =`.
fn put_printed(buf: &mut [u8], at: usize, rec: Record, table: Table, line: &[u8]) -> usize
    ensures { Wrote buf.old at (printed_shown (record_piece rec table line.now)) buf.new result }
{
    let at_sign = put_byte(buf, at, b' ');
    let at_text = put_byte(buf, at_sign, b'=');
    put_record(buf, at_text, rec, table, line)
}

// What is seen of an accepted line.
fn put_seen(
    buf: &mut [u8],
    at: usize,
    rec: Record,
    held: Tables,
    names: &[u8],
    line: &[u8],
) -> usize
    ensures { Wrote buf.old at (seen rec held names.now line.now) buf.new result }
{
    let table = rec.table(line);
    let at_book = show_record(buf, at, rec, table, held, names, line);
    let at_sign = put_book(buf, at_book, rec);
    put_printed(buf, at_sign, rec, table, line)
}

// `@` and the place of an unreadable number, right behind its answer.
#[tactic(auto, using(put::proofs::Writing::wrote_nothing), unfolding(crate::specs::Line::place_shown, text::specs::Res::placed))]
fn put_place(buf: &mut [u8], at: usize, no: Refusal) -> usize
    ensures { Wrote buf.old at (place_shown no) buf.new result }
{
    match no.place() {
        Some(place) => {
            let at_place = put_byte(buf, at, b'@');
            put_nat(buf, at_place, place as u64, 1)
        }
        None => at,
    }
}

// The fields of a reading; of a refused line the place that its answer has.
#[tactic(auto, unfolding(crate::specs::Line::fields_shown))]
fn put_fields(
    buf: &mut [u8],
    at: usize,
    reading: Reading,
    held: Tables,
    names: &[u8],
    line: &[u8],
) -> usize
    ensures { Wrote buf.old at (fields_shown reading held names.now line.now) buf.new result }
{
    match reading {
        Ok(record) => put_seen(buf, at, record, held, names, line),
        Err(no) => put_place(buf, at, no),
    }
}

// The line with this number, as it was read: what `held` has in force at it, and the names asked for (three bytes each;
// none: the table's).
pub fn put_line(
    buf: &mut [u8],
    at: usize,
    number: u64,
    line: &[u8],
    reading: Reading,
    held: Tables,
    names: &[u8],
) -> usize
    ensures { Wrote buf.old at (fields_line number line.now reading held names.now) buf.new result }
{
    let at_fields = put_head(buf, at, number, line, reading);
    let at_end = put_fields(buf, at_fields, reading, held, names, line);
    put_byte(buf, at_end, b'\n')
}
