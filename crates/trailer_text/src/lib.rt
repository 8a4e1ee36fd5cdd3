// The trailer: counts over the readings of a walk, and where the I line in force begins.
#![tactic(auto)]

ghost use Rattle.std.specs.Prelude.{◌≡◌};
ghost use Rattle.put.specs.Put.{Wrote};
ghost use Rattle.trailer_text.specs.Trailer.{nothing, is_refusal_of, tallied, force_after, offset_text, figures};
ghost use Rattle.trailer_text.specs.Trailer.{trailer_text_of};

use print::number::put_nat;
use put::put_byte;
use records::{Reading, answer_number};
use text::line::begins;

#[derive(Clone, Copy)]
pub struct Trailer {
    pub in_force: Option<usize>,
    pub lines: u64,
    pub refused: u64,
}

// An answer from 1 to 5.
pub fn is_refusal(reading: Reading) -> bool
    ensures { result ≡ is_refusal_of reading }
{
    let answer = answer_number(reading);
    1 <= answer && answer <= 5
}

// The I line in force after a line: an accepted I line is from now on, a refused one leaves none.
pub fn in_force_after(
    before: Option<usize>,
    place: usize,
    line: &[u8],
    reading: Reading,
) -> Option<usize>
    ensures { result ≡ force_after before place line.now reading }
{
    if !begins(b'I', line) {
        return before;
    }
    match answer_number(reading) {
        0 => Some(place),
        _ => None,
    }
}

// The place, or a dash.
#[tactic(auto, unfolding(crate::specs::Trailer::offset_text, crate::specs::Answer::plain))]
pub fn put_offset(buf: &mut [u8], at: usize, in_force: Option<usize>) -> usize
    ensures { Wrote buf.old at (offset_text in_force) buf.new result }
{
    match in_force {
        None => put_byte(buf, at, b'-'),
        Some(place) => put_nat(buf, at, place as u64, 1),
    }
}

impl Trailer {
    // Over no readings.
    #[tactic(auto, unfolding(crate::specs::Trailer::nothing))]
    pub fn new() -> Trailer
        ensures { result ≡ nothing }
    {
        Trailer {
            in_force: None,
            lines: 0,
            refused: 0,
        }
    }

    // Over one reading more. Where a count would pass 64 bits, the figures stay.
    pub fn after(self, place: usize, line: &[u8], reading: Reading) -> Trailer
        ensures { result ≡ tallied self place line.now reading }
    {
        if self.lines == u64::MAX || self.refused == u64::MAX {
            return self;
        }
        let refused = if is_refusal(reading) {
            self.refused + 1
        } else {
            self.refused
        };
        Trailer {
            in_force: in_force_after(self.in_force, place, line, reading),
            lines: self.lines + 1,
            refused,
        }
    }

    // The two counts, each behind a space.
    fn put_counts(self, buf: &mut [u8], at: usize) -> usize
        ensures { Wrote buf.old at (figures self) buf.new result }
    {
        let at_lines = put_byte(buf, at, b' ');
        let at_space = put_nat(buf, at_lines, self.lines, 1);
        let at_refused = put_byte(buf, at_space, b' ');
        put_nat(buf, at_refused, self.refused, 1)
    }

    // T, lines, lines answered 1 to 5, the I line in force; closed by LF.
    pub fn put(self, buf: &mut [u8], at: usize) -> usize
        ensures { Wrote buf.old at (trailer_text_of self) buf.new result }
    {
        let at_counts = put_byte(buf, at, b'T');
        let at_space = self.put_counts(buf, at_counts);
        let at_offset = put_byte(buf, at_space, b' ');
        let at_end = put_offset(buf, at_offset, self.in_force);
        put_byte(buf, at_end, b'\n')
    }
}
