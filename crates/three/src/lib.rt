// What the times and dates of src/util/datetime.rs share: three numbers of two characters.
#![tactic(auto)]

ghost use Rattle.std.specs.Prelude.{◌≡◌};
ghost use Rattle.field.specs.Field.{sized};
ghost use Rattle.put.specs.Put.{Wrote};
ghost use Rattle.three.specs.Three.{read_three_of, three_text, together};

use print::number::put_nat;
use text::number::read_u8;
use text::refusal::{Refusal, counted_from};

#[derive(Clone, Copy)]
pub struct Three(pub u8, pub u8, pub u8);

// Three numbers of two characters, read before any of them is tested.
pub fn read_three(text: &[u8]) -> Result<Three, Refusal>
    ensures { result ≡ sized 6 (read_three_of together) text.now }
{
    if text.len() != 6 {
        return Err(Refusal::WrongLength);
    }
    let first = counted_from(0, read_u8(&text[0..2]))?;
    let second = counted_from(2, read_u8(&text[2..4]))?;
    let third = counted_from(4, read_u8(&text[4..6]))?;
    Ok(Three(first, second, third))
}

// Three numbers, each in width 2.
pub fn put_three(buf: &mut [u8], at: usize, a: u8, b: u8, c: u8) -> usize
    ensures { Wrote buf.old at (three_text a b c) buf.new result }
{
    let at_second = put_nat(buf, at, a as u64, 2);
    let at_third = put_nat(buf, at_second, b as u64, 2);
    put_nat(buf, at_third, c as u64, 2)
}
