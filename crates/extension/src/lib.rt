// One definition of an extension, as the first half of src/records/extension.rs has it.
#![tactic(auto)]

pub mod value;

ghost use Rattle.std.specs.Prelude.{◌≡◌};
ghost use Rattle.text.specs.Res.{ok};
ghost use Rattle.print.specs.Print.{Prints};
ghost use Rattle.extension.specs.Extension.{read_extension, new_extension, extension_text};

use field::Mnemonic;
use print::number::put_nat;
use print::printed::{Piece, print_piece};
use text::number::read_u8;
use text::refusal::{Refusal, counted_from};

// A named part of a line, from its first column to its last, counted from 1.
#[derive(Clone, Copy)]
pub struct Extension {
    pub mnemonic: Mnemonic,
    pub start_byte: u8,
    pub end_byte: u8,
}

impl Extension {
    pub const STRING_LENGTH: usize = 7;

    // Stricter than reading, which takes an end equal to its start and any start.
    pub fn new(mnemonic: Mnemonic, start: u8, end: u8) -> Result<Extension, Refusal>
        ensures { result ≡ new_extension mnemonic start end }
    {
        if 3 <= start && start < end {
            return Ok(Extension {
                mnemonic,
                start_byte: start,
                end_byte: end,
            });
        }
        Err(Refusal::BadExtension)
    }

    // Reads a definition of seven bytes.
    pub fn parse(text: &[u8]) -> Result<Extension, Refusal>
        ensures { result ≡ read_extension text.now }
    {
        if text.len() != Extension::STRING_LENGTH {
            return Err(Refusal::Syntax);
        }
        let start = counted_from(0, read_u8(&text[0..2]))?;
        let end = counted_from(2, read_u8(&text[2..4]))?;
        if end < start {
            return Err(Refusal::BadExtension);
        }
        Ok(Extension {
            mnemonic: Mnemonic(text[4], text[5], text[6]),
            start_byte: start,
            end_byte: end,
        })
    }

    // Prints it.
    pub fn print(self, buf: &mut [u8]) -> Result<usize, Refusal>
        ensures { Prints (ok (extension_text self)) buf.old buf.new result }
    {
        print_piece(self, buf)
    }
}

impl Piece for Extension {
    ghost text = { extension_text };

    fn put(self, buf: &mut [u8], at: usize) -> usize {
        let mnemonic = self.mnemonic;
        let at_end = put_nat(buf, at, self.start_byte as u64, 2);
        let at_name = put_nat(buf, at_end, self.end_byte as u64, 2);
        mnemonic.put(buf, at_name)
    }
}
