// Times, as src/util/datetime.rs has them.
#![tactic(auto)]

ghost use Rattle.std.specs.Prelude.{◌≡◌};
ghost use Rattle.text.specs.Res.{ok};
ghost use Rattle.print.specs.Print.{Prints};
ghost use Rattle.time.specs.Time.{time_of, read_time_of, time_in, time_text, seconds_of_lem, time_book};

use field::is_ascii;
use print::printed::{Piece, print_piece};
use text::refusal::Refusal;
use three::{Three, put_three, read_three};

// A time of day, in UTC, of any three numbers.
#[derive(Clone, Copy)]
pub struct Time {
    pub seconds: u8,
    pub minutes: u8,
    pub hours: u8,
}

impl Time {
    // A time of at most 24, 60 and 60.
    pub fn from_hms(hours: u8, minutes: u8, seconds: u8) -> Result<Time, Refusal>
        ensures { result ≡ time_of hours minutes seconds }
    {
        if hours <= 24 && minutes <= 60 && seconds <= 60 {
            return Ok(Time {
                seconds,
                minutes,
                hours,
            });
        }
        Err(Refusal::OutOfRange)
    }

    // A time in a text that the caller knows to be ASCII: the test is not made again.
    pub fn parse_ascii(text: &[u8]) -> Result<Time, Refusal>
        ensures { result ≡ time_in text.now }
    {
        let Three(hours, minutes, seconds) = read_three(text)?;
        Time::from_hms(hours, minutes, seconds)
    }

    // Reads a time of six bytes. The two tests stand here as in `date` and `position`: a function that took the reader
    // as a closure would be longer than they are.
    pub fn parse(text: &[u8]) -> Result<Time, Refusal>
        ensures { result ≡ read_time_of text.now }
    {
        if text.len() != 6 {
            return Err(Refusal::WrongLength);
        }
        if !is_ascii(text) {
            return Err(Refusal::NotAscii);
        }
        Time::parse_ascii(text)
    }

    // Of any three numbers, also of those that are no time of day.
    pub fn seconds_since_midnight(self) -> u32
        ensures { result ≡ seconds_of_lem self }
    {
        self.hours as u32 * 3600 + self.minutes as u32 * 60 + self.seconds as u32
    }

    // A time of day.
    pub fn by_the_book(self) -> bool
        ensures { result ≡ time_book self }
    {
        self.hours <= 23 && self.minutes <= 59 && self.seconds <= 59
    }

    // Prints it.
    pub fn print(self, buf: &mut [u8]) -> Result<usize, Refusal>
        ensures { Prints (ok (time_text self)) buf.old buf.new result }
    {
        print_piece(self, buf)
    }
}

impl Piece for Time {
    ghost text = { time_text };

    fn put(self, buf: &mut [u8], at: usize) -> usize {
        put_three(buf, at, self.hours, self.minutes, self.seconds)
    }
}
