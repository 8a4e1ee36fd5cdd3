// H lines, as src/records/h_record.rs has them.
#![tactic(auto)]

ghost use Rattle.std.specs.Prelude.{◌≡◌, position};
ghost use Rattle.part.specs.Part.{find_part, find_maybe, part_bytes, maybe_bytes, shown, Shows};
ghost use Rattle.put.specs.Put.{Wrote};
ghost use Rattle.print.specs.Print.{Prints};
ghost use Rattle.h_record.specs.HRecord.{source_byte, source_of, is_colon, read_h, char_text, name_text, data_text};
ghost use Rattle.h_record.specs.HRecord.{h_piece, h_text};

use field::is_ascii;
use part::{InLine, Part};
use print::printed::{LinePiece, print_beside};
use put::{put_byte, put_part};
use text::refusal::Refusal;

#[derive(Clone, Copy)]
pub enum DataSource {
    FVU,
    OfficialObserver,
    Pilot,
    Unrecognized(u8),
}

#[derive(Clone, Copy)]
pub struct HRecord {
    pub mnemonic: Part,
    pub friendly_name: Option<Part>,
    pub data: Part,
    pub data_source: DataSource,
}

// The Rust's own names, which may not change, and so no `From<u8>`.
impl DataSource {
    // The source of a byte.
    pub fn from_byte(byte: u8) -> DataSource
        ensures { result ≡ source_of byte }
    {
        match byte {
            b'F' => DataSource::FVU,
            b'O' => DataSource::OfficialObserver,
            b'P' => DataSource::Pilot,
            other => DataSource::Unrecognized(other),
        }
    }

    // The byte of a source.
    pub fn to_byte(self) -> u8
        ensures { result ≡ source_byte self }
    {
        match self {
            DataSource::FVU => b'F',
            DataSource::OfficialObserver => b'O',
            DataSource::Pilot => b'P',
            DataSource::Unrecognized(byte) => byte,
        }
    }
}

// The place of the first colon.
fn colon(text: &[u8]) -> Option<usize>
    ensures { result ≡ position is_colon text.now }
{
    text.iter().position(|b| *b == b':')
}

// A character as Rust's `char` prints: a source of 128 or more, built by hand, takes two bytes.
fn put_char(buf: &mut [u8], at: usize, b: u8) -> usize
    ensures { Wrote buf.old at (char_text b) buf.new result }
{
    if b <= 127 {
        return put_byte(buf, at, b);
    }
    let next = put_byte(buf, at, 192 + b / 64);
    put_byte(buf, next, 128 + b % 64)
}

// A name with its colon; nothing where there is no name.
fn put_name(buf: &mut [u8], at: usize, name: Option<Part>, line: &[u8]) -> usize
    ensures { Wrote buf.old at (name_text name (maybe_bytes name line.now)) buf.new
        result }
{
    match name {
        None => at,
        Some(p) => {
            let at_colon = put_part(buf, at, line, p);
            put_byte(buf, at_colon, b':')
        }
    }
}

impl HRecord {
    // Reads an H line.
    pub fn parse(line: &[u8]) -> Result<HRecord, Refusal>
        ensures { result ≡ read_h line.now }
    {
        if line.len() < 6 {
            return Err(Refusal::Syntax);
        }
        if line[0] != b'H' {
            return Err(Refusal::Syntax);
        }
        if !is_ascii(&line[0..5]) {
            return Err(Refusal::NotAscii);
        }
        let (friendly_name, data) = match colon(&line[5..]) {
            None => (None, Part::from_column(5, line)),
            Some(n) => (
                Some(Part { start: 5, len: n }),
                Part::from_column(5 + n + 1, line),
            ),
        };
        Ok(HRecord {
            mnemonic: Part { start: 2, len: 3 },
            friendly_name,
            data,
            data_source: DataSource::from_byte(line[1]),
        })
    }

    // The mnemonic, the name and the data, each as a part of the caller's own line.
    pub fn mnemonic(self, line: &[u8]) -> &[u8]
        ensures { Shows line.entry (shown (find_part self.mnemonic line.now)) result }
    {
        self.mnemonic.view(line)
    }

    // The name, as a part of the caller's own line.
    pub fn friendly_name(self, line: &[u8]) -> &[u8]
        ensures { Shows line.entry (shown (find_maybe self.friendly_name line.now)) result }
    {
        self.friendly_name.view(line)
    }

    // The data, as a part of the caller's own line.
    pub fn data(self, line: &[u8]) -> &[u8]
        ensures { Shows line.entry (shown (find_part self.«data» line.now)) result }
    {
        self.data.view(line)
    }

    // The name with its colon, and the data.
    fn put_data(self, buf: &mut [u8], at: usize, line: &[u8]) -> usize
        ensures { Wrote buf.old
            at (data_text self (maybe_bytes self.friendly_name line.now)
            (part_bytes self.«data» line.now)) buf.new result }
    {
        let next = put_name(buf, at, self.friendly_name, line);
        put_part(buf, next, line, self.data)
    }

    // Prints the record beside its line.
    pub fn print(self, line: &[u8], buf: &mut [u8]) -> Result<usize, Refusal>
        ensures { Prints (h_text self line.now) buf.old buf.new result }
    {
        self.mnemonic.find(line)?;
        self.friendly_name.find(line)?;
        self.data.find(line)?;
        print_beside(self, line, buf)
    }
}

// The text as a piece of a larger one.
impl LinePiece for HRecord {
    ghost piece = { h_piece };

    fn put_piece(self, buf: &mut [u8], at: usize, line: &[u8]) -> usize {
        let at_second = put_byte(buf, at, b'H');
        let at_third = put_char(buf, at_second, self.data_source.to_byte());
        let at_data = put_part(buf, at_third, line, self.mnemonic);
        self.put_data(buf, at_data, line)
    }
}
