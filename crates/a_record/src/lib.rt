// A lines, as src/records/a_record.rs has them.
#![tactic(auto)]

ghost use Rattle.std.specs.Prelude.{◌≡◌, ◌+◌, ◌≤◌, length};
ghost use Rattle.part.specs.Part.{find_part, find_maybe, shown, Shows};
ghost use Rattle.put.specs.Put.{Wrote};
ghost use Rattle.print.specs.Print.{Prints};
ghost use Rattle.manufacturer.specs.Maker.{triple_of};
ghost use Rattle.a_record.specs.ARecord.{a_new, a_of, long_form, read_triple, read_a, triple_text, a_piece, a_text};

use field::{Mnemonic, all_digits, is_ascii};
use manufacturer::Manufacturer;
use part::{InLine, Part};
use print::printed::{LinePiece, print_beside};
use put::{put_byte, put_part};
use text::refusal::Refusal;

#[derive(Clone, Copy)]
pub struct ARecord {
    pub unique_id: Part,
    pub id_extension: Option<Part>,
    pub manufacturer: Manufacturer,
}

// At least 9 bytes, and columns 4-9 are digits.
fn is_long(line: &[u8]) -> bool
    ensures { result ≡ long_form line.now }
{
    9 <= line.len() && all_digits(&line[4..9])
}

// The maker's triple as a piece; a maker that has none puts nothing.
fn put_triple(buf: &mut [u8], at: usize, m: Manufacturer) -> usize
    ensures { Wrote buf.old at (triple_text (triple_of m)) buf.new result }
{
    match m.to_triple_char() {
        Some(triple) => triple.put(buf, at),
        None => at,
    }
}

impl ARecord {
    // A record of its three parts.
    pub fn new(manufacturer: Manufacturer, id: Part, extension: Option<Part>) -> ARecord
        ensures { result ≡ a_new manufacturer id extension }
    {
        ARecord {
            unique_id: id,
            id_extension: extension,
            manufacturer,
        }
    }

    // A maker, an id of `len` bytes from `start` on, and what stands behind it.
    fn with_id(line: &[u8], manufacturer: Manufacturer, start: usize, len: usize) -> ARecord
        requires { start + len ≤ 9 }
        ensures { result ≡ a_of line.now manufacturer start len }
    {
        ARecord::new(
            manufacturer,
            Part { start, len },
            Part::from_column_or_none(start + len, line),
        )
    }

    // The two forms with a triple.
    fn parse_triple(line: &[u8]) -> Result<ARecord, Refusal>
        requires { 7 ≤ length line.now }
        ensures { result ≡ read_triple line.now }
    {
        let maker = Manufacturer::parse_triple_char(Mnemonic(line[1], line[2], line[3]));
        if is_long(line) {
            if is_ascii(&line[0..4]) {
                return Ok(ARecord::with_id(line, maker, 4, 5));
            }
            return Err(Refusal::NotAscii);
        }
        if is_ascii(&line[0..7]) {
            return Ok(ARecord::with_id(line, maker, 4, 3));
        }
        Err(Refusal::NotAscii)
    }

    // Reads an A line, by the letter form where columns 2-7 are digits, and else by a triple.
    pub fn parse(line: &[u8]) -> Result<ARecord, Refusal>
        ensures { result ≡ read_a line.now }
    {
        if line.len() < 7 {
            return Err(Refusal::Syntax);
        }
        if line[0] != b'A' {
            return Err(Refusal::Syntax);
        }
        if all_digits(&line[2..7]) {
            let letter = line[1];
            if 127 < letter {
                return Err(Refusal::NotAscii);
            }
            let maker = Manufacturer::parse_single_char(letter);
            return Ok(ARecord::with_id(line, maker, 2, 5));
        }
        ARecord::parse_triple(line)
    }

    // The id and the rest, each as a part of the caller's own line.
    pub fn unique_id(self, line: &[u8]) -> &[u8]
        ensures { Shows line.entry (shown (find_part self.unique_id line.now)) result }
    {
        self.unique_id.view(line)
    }

    // What stands behind the id, as a part of the caller's own line.
    pub fn id_extension(self, line: &[u8]) -> &[u8]
        ensures { Shows line.entry (shown (find_maybe self.id_extension line.now)) result }
    {
        self.id_extension.view(line)
    }

    // Prints the record beside its line.
    pub fn print(self, line: &[u8], buf: &mut [u8]) -> Result<usize, Refusal>
        ensures { Prints (a_text self line.now) buf.old buf.new result }
    {
        self.unique_id.find(line)?;
        self.id_extension.find(line)?;
        print_beside(self, line, buf)
    }
}

// The text as a piece of a larger one.
impl LinePiece for ARecord {
    ghost piece = { a_piece };

    fn put_piece(self, buf: &mut [u8], at: usize, line: &[u8]) -> usize {
        let at_triple = put_byte(buf, at, b'A');
        let at_number = put_triple(buf, at_triple, self.manufacturer);
        let at_rest = put_part(buf, at_number, line, self.unique_id);
        put_part(buf, at_rest, line, self.id_extension)
    }
}
