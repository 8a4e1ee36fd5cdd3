// A field of each kind, in plain decimal, behind the space that parts it from the one before.
ghost use Rattle.put.specs.Put.{Wrote};
ghost use Rattle.piece_text.specs.Piece.{number_shown, byte_shown, place_text, part_shown, maybe_shown, two_marked};
ghost use Rattle.piece_text.specs.Piece.{three_shown, time_shown, date_shown, flight_shown, coord_shown};
ghost use Rattle.piece_text.specs.Piece.{position_shown};
ghost use Rattle.piece_text.specs.Piece.{letter_shown, triple_shown};

use date::Date;
use field::Mnemonic;
use part::Part;
use position::RawPosition;
use print::number::put_nat;
use put::put_byte;
use raw_coord::RawCoord;
use time::Time;

// A number in plain decimal.
pub fn show_number(buf: &mut [u8], at: usize, n: u64) -> usize
    ensures { Wrote buf.old at (number_shown n) buf.new result }
{
    let next = put_byte(buf, at, b' ');
    put_nat(buf, next, n, 1)
}

// A byte as it is.
#[tactic(auto, using(put::proofs::Writing::then), unfolding(crate::specs::Piece::byte_shown))]
pub fn show_byte(buf: &mut [u8], at: usize, b: u8) -> usize
    ensures { Wrote buf.old at (byte_shown b) buf.new result }
{
    let next = put_byte(buf, at, b' ');
    put_byte(buf, next, b)
}

// START+LEN, counted from the line's start.
pub fn put_place(buf: &mut [u8], at: usize, p: Part) -> usize
    ensures { Wrote buf.old at (place_text p) buf.new result }
{
    let at_plus = put_nat(buf, at, p.start as u64, 1);
    let at_len = put_byte(buf, at_plus, b'+');
    put_nat(buf, at_len, p.len as u64, 1)
}

// START+LEN.
pub fn show_part(buf: &mut [u8], at: usize, p: Part) -> usize
    ensures { Wrote buf.old at (part_shown p) buf.new result }
{
    let next = put_byte(buf, at, b' ');
    put_place(buf, next, p)
}

// The same, or a dash.
#[tactic(auto, unfolding(crate::specs::Piece::maybe_shown))]
pub fn show_maybe(buf: &mut [u8], at: usize, p: Option<Part>) -> usize
    ensures { Wrote buf.old at (maybe_shown p) buf.new result }
{
    match p {
        None => show_byte(buf, at, b'-'),
        Some(part) => show_part(buf, at, part),
    }
}

// Two numbers behind a first one, each behind the mark.
fn put_two(buf: &mut [u8], at: usize, mark: u8, b: u8, c: u8) -> usize
    ensures { Wrote buf.old at (two_marked mark b c) buf.new result }
{
    let at_second = put_byte(buf, at, mark);
    let next = put_nat(buf, at_second, b as u64, 1);
    let at_third = put_byte(buf, next, mark);
    put_nat(buf, at_third, c as u64, 1)
}

fn show_three(buf: &mut [u8], at: usize, mark: u8, a: u8, b: u8, c: u8) -> usize
    ensures { Wrote buf.old at (three_shown mark a b c) buf.new result }
{
    let next = show_number(buf, at, a as u64);
    put_two(buf, next, mark, b, c)
}

// H:M:S.
#[tactic(auto, unfolding(crate::specs::Piece::time_shown))]
pub fn show_time(buf: &mut [u8], at: usize, t: Time) -> usize
    ensures { Wrote buf.old at (time_shown t) buf.new result }
{
    show_three(buf, at, b':', t.hours, t.minutes, t.seconds)
}

// D/M/Y.
#[tactic(auto, unfolding(crate::specs::Piece::date_shown))]
pub fn show_date(buf: &mut [u8], at: usize, d: Date) -> usize
    ensures { Wrote buf.old at (date_shown d) buf.new result }
{
    show_three(buf, at, b'/', d.day, d.month, d.year)
}

// A flight date, or a dash.
#[tactic(auto, unfolding(crate::specs::Piece::flight_shown))]
pub fn show_flight(buf: &mut [u8], at: usize, flight: Option<Date>) -> usize
    ensures { Wrote buf.old at (flight_shown flight) buf.new result }
{
    match flight {
        None => show_byte(buf, at, b'-'),
        Some(date) => show_date(buf, at, date),
    }
}

// Degrees, thousandths of a minute, letter.
fn show_coord(buf: &mut [u8], at: usize, c: RawCoord) -> usize
    ensures { Wrote buf.old at (coord_shown c) buf.new result }
{
    let at_thousandths = show_number(buf, at, c.degrees as u64);
    let at_letter = show_number(buf, at_thousandths, c.minute_thousandths as u64);
    show_byte(buf, at_letter, c.sign.letter())
}

// Latitude, then longitude.
pub fn show_position(buf: &mut [u8], at: usize, pos: RawPosition) -> usize
    ensures { Wrote buf.old at (position_shown pos) buf.new result }
{
    let next = show_coord(buf, at, pos.lat.0);
    show_coord(buf, next, pos.lon.0)
}

// A maker's letter as it is, or `-`.
#[tactic(auto, unfolding(crate::specs::Piece::letter_shown))]
pub fn show_letter(buf: &mut [u8], at: usize, code: Option<u8>) -> usize
    ensures { Wrote buf.old at (letter_shown code) buf.new result }
{
    match code {
        None => show_byte(buf, at, b'-'),
        Some(letter) => show_byte(buf, at, letter),
    }
}

// A maker's triple as it is, or `-`.
#[tactic(auto, unfolding(crate::specs::Piece::triple_shown))]
pub fn show_triple(buf: &mut [u8], at: usize, code: Option<Mnemonic>) -> usize
    ensures { Wrote buf.old at (triple_shown code) buf.new result }
{
    match code {
        None => show_byte(buf, at, b'-'),
        Some(triple) => {
            let next = put_byte(buf, at, b' ');
            triple.put(buf, next)
        }
    }
}
