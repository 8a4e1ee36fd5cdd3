// Printers: the whole text into lent bytes, or a refusal that leaves them as they were.
ghost use Rattle.std.specs.Prelude.{ℕ, List};
ghost use Rattle.text.specs.Res.{ok};
ghost use Rattle.text.specs.Number.{signed};
ghost use Rattle.part.specs.Part.{part_bytes, part_text};
ghost use Rattle.put.specs.Put.{Wrote};
ghost use Rattle.print.specs.Print.{Prints};

use crate::number::put_int;
use part::{InLine, Part};
use put::put_part;
use text::refusal::Refusal;

// What can be put into lent bytes as a piece of a larger text: bytes that are too short cut it.
pub trait Piece {
    ghost text: { Self → List ℕ };

    // From a place on; the answer is the place of the next piece.
    fn put(self, buf: &mut [u8], at: usize) -> usize
        ensures { Wrote buf.old at (text self) buf.new result };
}

// The same of what has its parts in a line that is lent beside it; what lies outside the line is left out.
pub trait LinePiece {
    ghost piece: { Self → List ℕ → List ℕ };

    // From a place on; the answer is the place of the next piece.
    fn put_piece(self, buf: &mut [u8], at: usize, line: &[u8]) -> usize
        ensures { Wrote buf.old at (piece self line.now) buf.new result };
}

// Prints a piece, tried on no bytes first.
pub fn print_piece<P: Piece + Copy>(piece: P, buf: &mut [u8]) -> Result<usize, Refusal>
    ensures { Prints (ok (P.text piece)) buf.old buf.new result }
{
    if buf.len() < piece.put(&mut [], 0) {
        return Err(Refusal::NoRoom);
    }
    Ok(piece.put(buf, 0))
}

// A piece and the line that it has its parts in.
#[derive(Clone, Copy)]
struct Beside<'a, P> {
    piece: P,
    line: &'a [u8],
}

impl<'a, P: LinePiece> Piece for Beside<'a, P> {
    ghost text = { λ b. P.piece b.piece b.line.now };

    fn put(self, buf: &mut [u8], at: usize) -> usize {
        self.piece.put_piece(buf, at, self.line)
    }
}

// Prints a piece beside its line.
pub fn print_beside<P: LinePiece + Copy>(
    piece: P,
    line: &[u8],
    buf: &mut [u8],
) -> Result<usize, Refusal>
    ensures { Prints (ok (P.piece piece line.now)) buf.old buf.new result }
{
    print_piece(Beside { piece, line }, buf)
}

// A number and the width that it is padded to.
#[derive(Clone, Copy, PartialEq, Eq, Debug)]
struct Padded {
    z: i64,
    width: usize,
}

impl Piece for Padded {
    ghost text = { λ p. signed p.width p.z };

    fn put(self, buf: &mut [u8], at: usize) -> usize {
        put_int(buf, at, self.z, self.width)
    }
}

// Prints a number in a width.
pub fn print_int(z: i64, width: usize, buf: &mut [u8]) -> Result<usize, Refusal>
    ensures { Prints (ok (signed width z)) buf.old buf.new result }
{
    print_piece(Padded { z, width }, buf)
}

impl LinePiece for Part {
    ghost piece = { part_bytes };

    fn put_piece(self, buf: &mut [u8], at: usize, line: &[u8]) -> usize {
        put_part(buf, at, line, self)
    }
}

// Prints a part of the line.
pub fn print_part(p: Part, line: &[u8], buf: &mut [u8]) -> Result<usize, Refusal>
    ensures { Prints (part_text p line.now) buf.old buf.new result }
{
    p.find(line)?;
    print_beside(p, line, buf)
}
