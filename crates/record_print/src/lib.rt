// Records of every kind printed, as src/records/mod.rs has it.
#![tactic(auto)]

ghost use Rattle.put.specs.Put.{Wrote};
ghost use Rattle.print.specs.Print.{Prints};
ghost use Rattle.record_print.specs.Printed.{record_text, record_piece};

use print::printed::{LinePiece, print_part};
use put::put_part;
use records::Record;
use table::Table;
use text::refusal::Refusal;

// Prints a record. The table is that of an I or a J line; other kinds do not look at it.
#[tactic(auto, unfolding(crate::specs::Printed::record_text))]
pub fn print_record(
    rec: Record,
    table: Table,
    line: &[u8],
    buf: &mut [u8],
) -> Result<usize, Refusal>
    ensures { Prints (record_text rec table line.now) buf.old buf.new result }
{
    match rec {
        Record::A(a) => a.print(line, buf),
        Record::B(b) => b.print(line, buf),
        Record::CDeclaration(task) => task.print(line, buf),
        Record::CTurnpoint(point) => point.print(line, buf),
        Record::D(d) => d.print(line, buf),
        Record::E(e) => e.print(line, buf),
        Record::F(f) => f.print(line, buf),
        Record::G(g) => g.print(line, buf),
        Record::H(h) => h.print(line, buf),
        Record::I => table.print(b'I', buf),
        Record::J => table.print(b'J', buf),
        Record::K(k) => k.print(line, buf),
        Record::L(l) => l.print(line, buf),
        Record::Unrecognised(other) => print_part(other, line, buf),
    }
}

// A record's text as a piece of a larger one, from a place on: bytes that are too short cut it, and a part outside the
// line is left out. `print_record` is the printer.
#[tactic(auto, unfolding(crate::specs::Printed::record_piece))]
pub fn put_record(buf: &mut [u8], at: usize, rec: Record, table: Table, line: &[u8]) -> usize
    ensures { Wrote buf.old at (record_piece rec table line.now) buf.new result }
{
    match rec {
        Record::A(a) => a.put_piece(buf, at, line),
        Record::B(b) => b.put_piece(buf, at, line),
        Record::CDeclaration(task) => task.put_piece(buf, at, line),
        Record::CTurnpoint(point) => point.put_piece(buf, at, line),
        Record::D(d) => d.put_piece(buf, at, line),
        Record::E(e) => e.put_piece(buf, at, line),
        Record::F(f) => f.put_piece(buf, at, line),
        Record::G(g) => g.put_piece(buf, at, line),
        Record::H(h) => h.put_piece(buf, at, line),
        Record::I => table.put_piece(buf, at, b'I'),
        Record::J => table.put_piece(buf, at, b'J'),
        Record::K(k) => k.put_piece(buf, at, line),
        Record::L(l) => l.put_piece(buf, at, line),
        Record::Unrecognised(other) => put_part(buf, at, line, other),
    }
}
