// Dates, as src/util/datetime.rs has them.
#![tactic(auto)]

ghost use Rattle.std.specs.Prelude.{◌≡◌};
ghost use Rattle.text.specs.Res.{ok};
ghost use Rattle.print.specs.Print.{Prints};
ghost use Rattle.date.specs.Date.{date_of, read_date, date_in, dated, new_date, date_text, date_book};

use calendar::days_in;
use field::is_ascii;
use print::printed::{Piece, print_piece};
use text::refusal::Refusal;
use three::{Three, put_three, read_three};

// A day of a year of which the last two digits are known.
#[derive(Clone, Copy)]
pub struct Date {
    pub day: u8,
    pub month: u8,
    pub year: u8,
}

impl Date {
    // A day of 1 to 31 and a month of 1 to 12. Reading is more lenient: there a zero passes.
    pub fn from_dmy(day: u8, month: u8, year: u8) -> Result<Date, Refusal>
        ensures { result ≡ new_date day month year }
    {
        if year <= 99 && Date::dated(day, month) {
            return Ok(Date { day, month, year });
        }
        Err(Refusal::OutOfRange)
    }

    // A day and a month as construction takes them.
    fn dated(day: u8, month: u8) -> bool
        ensures { result ≡ dated day month }
    {
        1 <= day && day <= 31 && 1 <= month && month <= 12
    }

    // A date in a text that the caller knows to be ASCII: the test is not made again.
    fn parse_ascii(text: &[u8]) -> Result<Date, Refusal>
        ensures { result ≡ date_in text.now }
    {
        let Three(day, month, year) = read_three(text)?;
        Date::within(day, month, year)
    }

    // A day as reading takes it.
    fn within(day: u8, month: u8, year: u8) -> Result<Date, Refusal>
        ensures { result ≡ date_of day month year }
    {
        if day <= 31 && month <= 12 {
            return Ok(Date { day, month, year });
        }
        Err(Refusal::OutOfRange)
    }

    // Reads a date of six bytes. Its tests are those of `Time::parse`, and no plainer by a closure.
    pub fn parse(text: &[u8]) -> Result<Date, Refusal>
        ensures { result ≡ read_date text.now }
    {
        if text.len() != 6 {
            return Err(Refusal::WrongLength);
        }
        if !is_ascii(text) {
            return Err(Refusal::NotAscii);
        }
        Date::parse_ascii(text)
    }

    // A day that exists in its month.
    pub fn by_the_book(self) -> bool
        ensures { result ≡ date_book self }
    {
        self.year <= 99 && 1 <= self.day && self.day <= days_in(self.month, self.year)
    }

    // Prints it.
    pub fn print(self, buf: &mut [u8]) -> Result<usize, Refusal>
        ensures { Prints (ok (date_text self)) buf.old buf.new result }
    {
        print_piece(self, buf)
    }
}

impl Piece for Date {
    ghost text = { date_text };

    fn put(self, buf: &mut [u8], at: usize) -> usize {
        put_three(buf, at, self.day, self.month, self.year)
    }
}
