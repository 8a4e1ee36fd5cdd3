// C lines, as src/records/c_record.rs has them: which of them is a turnpoint's, and a task's declaration.
#![tactic(auto)]

ghost use Rattle.std.specs.Prelude.{◌≡◌, ◌≤◌, length};
ghost use Rattle.part.specs.Part.{find_maybe, maybe_bytes, shown, Shows};
ghost use Rattle.text.specs.Number.{zeros};
ghost use Rattle.put.specs.Put.{Wrote};
ghost use Rattle.print.specs.Print.{Prints};
ghost use Rattle.c_record.specs.CRecord.{turns, read_flight_of, read_task_of, read_declaration, flight_text, task_text};
ghost use Rattle.c_record.specs.CRecord.{declaration_piece, declaration_text, flight_book, declaration_book};

use date::Date;
use field::is_ascii;
use part::{InLine, Part};
use print::number::{put_i8, put_nat};
use print::printed::{LinePiece, Piece, print_beside};
use put::{put_byte, put_bytes, put_part};
use text::number::{read_i8, read_u16};
use text::refusal::{Refusal, counted_from};
use time::Time;

#[derive(Clone, Copy)]
pub struct CRecordDeclaration {
    pub task_name: Option<Part>,
    pub task_id: u16,
    pub turnpoint_count: i8,
    pub date: Date,
    pub time: Time,
    pub flight_date: Option<Date>,
}

#[derive(Clone, Copy)]
struct Task {
    id: u16,
    count: i8,
}

// Whether the line is a turnpoint's: there column 8 has the letter of a latitude.
pub fn is_turnpoint(line: &[u8]) -> bool
    ensures { result ≡ turns line.now }
{
    8 < line.len() && (line[8] == b'N' || line[8] == b'S')
}

fn all_zeros(text: &[u8]) -> bool
    ensures { result ≡ zeros text.now }
{
    text.iter().all(|b| *b == b'0')
}

// A flight date; `000000` is none.
fn read_flight(text: &[u8]) -> Result<Option<Date>, Refusal>
    ensures { result ≡ read_flight_of text.now }
{
    if all_zeros(text) {
        return Ok(None);
    }
    let date = Date::parse(text)?;
    Ok(Some(date))
}

fn read_task(line: &[u8]) -> Result<Task, Refusal>
    requires { 25 ≤ length line.now }
    ensures { result ≡ read_task_of line.now }
{
    let id = counted_from(19, read_u16(&line[19..23]))?;
    let count = counted_from(23, read_i8(&line[23..25]))?;
    Ok(Task { id, count })
}

fn put_flight(buf: &mut [u8], at: usize, flight: Option<Date>) -> usize
    ensures { Wrote buf.old at (flight_text flight) buf.new result }
{
    match flight {
        None => put_bytes(buf, at, b"000000"),
        Some(date) => date.put(buf, at),
    }
}

fn flight_by_the_book(flight: Option<Date>) -> bool
    ensures { result ≡ flight_book flight }
{
    match flight {
        None => true,
        Some(date) => date.by_the_book(),
    }
}

impl CRecordDeclaration {
    // Reads a task's declaration.
    pub fn parse(line: &[u8]) -> Result<CRecordDeclaration, Refusal>
        ensures { result ≡ read_declaration line.now }
    {
        if line.len() < 25 {
            return Err(Refusal::Syntax);
        }
        if line[0] != b'C' {
            return Err(Refusal::Syntax);
        }
        if !is_ascii(&line[0..25]) {
            return Err(Refusal::NotAscii);
        }
        let date = counted_from(1, Date::parse(&line[1..7]))?;
        let time = counted_from(7, Time::parse(&line[7..13]))?;
        let flight_date = counted_from(13, read_flight(&line[13..19]))?;
        let task = read_task(line)?;
        Ok(CRecordDeclaration {
            task_name: Part::from_column_or_none(25, line),
            task_id: task.id,
            turnpoint_count: task.count,
            date,
            time,
            flight_date,
        })
    }

    // The task's name, as a part of the caller's own line.
    pub fn task_name(self, line: &[u8]) -> &[u8]
        ensures { Shows line.entry (shown (find_maybe self.task_name line.now)) result }
    {
        self.task_name.view(line)
    }

    // Its dates and its time are by the book; no flight date passes.
    pub fn by_the_book(self) -> bool
        ensures { result ≡ declaration_book self }
    {
        self.date.by_the_book() && self.time.by_the_book() && flight_by_the_book(self.flight_date)
    }

    // From the flight date on.
    fn put_task(self, buf: &mut [u8], at: usize, line: &[u8]) -> usize
        ensures { Wrote buf.old
            at (task_text self (maybe_bytes self.task_name line.now)) buf.new result }
    {
        let at_id = put_flight(buf, at, self.flight_date);
        let at_count = put_nat(buf, at_id, self.task_id as u64, 4);
        let at_name = put_i8(buf, at_count, self.turnpoint_count, 2);
        put_part(buf, at_name, line, self.task_name)
    }

    // Prints the record beside its line.
    pub fn print(self, line: &[u8], buf: &mut [u8]) -> Result<usize, Refusal>
        ensures { Prints (declaration_text self line.now) buf.old buf.new result }
    {
        self.task_name.find(line)?;
        print_beside(self, line, buf)
    }
}

// The text as a piece of a larger one.
impl LinePiece for CRecordDeclaration {
    ghost piece = { declaration_piece };

    fn put_piece(self, buf: &mut [u8], at: usize, line: &[u8]) -> usize {
        let at_date = put_byte(buf, at, b'C');
        let at_time = self.date.put(buf, at_date);
        let at_flight = self.time.put(buf, at_time);
        self.put_task(buf, at_flight, line)
    }
}
