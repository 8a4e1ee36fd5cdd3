// The table of one I or J line, as the second half of src/records/extension.rs has it, with up to 99 definitions by
// value.
#![tactic(auto)]

ghost use Rattle.std.specs.Prelude.{◌≡◌, [], ◌+◌, ◌*◌, ◌≤◌, length};
ghost use Rattle.text.specs.Line.{columns};
ghost use Rattle.put.specs.Put.{Wrote};
ghost use Rattle.print.specs.Print.{Prints};
ghost use Rattle.table.specs.Table.{table_of, read_defs, is_table_of, read_table, defs_of, defs_text, table_body};
ghost use Rattle.table.specs.Table.{table_text, table_read};

use extension::Extension;
use field::{Mnemonic, is_ascii};
use print::number::put_nat;
use print::printed::{Piece, print_piece};
use put::put_byte;
use text::number::read_u8;
use text::refusal::{Refusal, counted_from};

// An array with a count, since the project has no heap.
#[derive(Clone, Copy)]
pub struct Table {
    pub defs: [Extension; 99],
    pub count: u8,
}

// I or J.
fn is_table(letter: u8) -> bool
    ensures { result ≡ is_table_of letter }
{
    letter == b'I' || letter == b'J'
}

impl Table {
    // 99 empty slots.
    #[tactic(auto, unfolding(crate::specs::Table::table_of))]
    pub fn new() -> Table
        ensures { result ≡ table_of [] }
    {
        let none = Extension {
            mnemonic: Mnemonic(0, 0, 0),
            start_byte: 0,
            end_byte: 0,
        };
        Table {
            defs: [none; 99],
            count: 0,
        }
    }

    // The n definitions of a line, in turn.
    fn parse_defs(line: &[u8], n: u8) -> Result<Table, Refusal>
        requires { (n ≤ 99) × (length line.now ≡ 3 + 7 * n) }
        ensures { result ≡ table_read (columns 3 (length line.now) (read_defs n) line.now) }
    {
        let mut table = Table::new();
        for i in 0..n as usize {
            let at = 3 + i * 7;
            let to = at + 7;
            let def = counted_from(at, Extension::parse(&line[at..to]))?;
            table.defs[i] = def;
        }
        table.count = n;
        Ok(table)
    }

    // The definitions of an I or a J line.
    pub fn parse(line: &[u8]) -> Result<Table, Refusal>
        ensures { result ≡ table_read (read_table line.now) }
    {
        if line.len() < 3 {
            return Err(Refusal::Syntax);
        }
        if !is_table(line[0]) {
            return Err(Refusal::Syntax);
        }
        if !is_ascii(line) {
            return Err(Refusal::NotAscii);
        }
        let count = counted_from(1, read_u8(&line[1..3]))?;
        if line.len() != 3 + 7 * count as usize {
            return Err(Refusal::Syntax);
        }
        Table::parse_defs(line, count)
    }

    // The definitions that count, one after the other.
    fn put_defs(self, buf: &mut [u8], at: usize) -> usize
        ensures { Wrote buf.old at (defs_text (defs_of self)) buf.new result }
    {
        let n = (self.count as usize).min(99);
        let mut next = at;
        for def in &self.defs[..n] {
            next = def.put(buf, next);
        }
        next
    }

    // The text as a piece of a larger one, from a place on; bytes that are too short cut it.
    pub fn put_piece(self, buf: &mut [u8], at: usize, letter: u8) -> usize
        ensures { Wrote buf.old at (table_body letter self) buf.new result }
    {
        let at_count = put_byte(buf, at, letter);
        let at_first = put_nat(buf, at_count, self.count as u64, 2);
        self.put_defs(buf, at_first)
    }

    // Prints an I or a J line.
    pub fn print(self, letter: u8, buf: &mut [u8]) -> Result<usize, Refusal>
        ensures { Prints (table_text letter self) buf.old buf.new result }
    {
        if 99 < self.count {
            return Err(Refusal::BadExtension);
        }
        print_piece(
            Lettered {
                table: self,
                letter,
            },
            buf,
        )
    }
}

// A table and the letter of its line.
#[derive(Clone, Copy)]
struct Lettered {
    table: Table,
    letter: u8,
}

impl Piece for Lettered {
    ghost text = { λ l. table_body l.letter l.table };

    fn put(self, buf: &mut [u8], at: usize) -> usize {
        self.table.put_piece(buf, at, self.letter)
    }
}
