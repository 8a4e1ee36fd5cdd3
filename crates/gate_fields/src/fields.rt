// "Fields": each is read and printed again.
use coord::{Axis, RawLatitude, RawLongitude};
use date::Date;
use extension::Extension;
use field::Mnemonic;
use gate_say as say;
use manufacturer::Manufacturer;
use position::RawPosition;
use raw_coord::Compass;
use text::refusal::Refusal;
use time::Time;

// A field that prints by a `print` of its own, which is what is run here.
trait Field: Copy {
    fn print_field(self, buf: &mut [u8]) -> Result<usize, Refusal>;
}

impl Field for Time {
    fn print_field(self, buf: &mut [u8]) -> Result<usize, Refusal> {
        self.print(buf)
    }
}

impl Field for Date {
    fn print_field(self, buf: &mut [u8]) -> Result<usize, Refusal> {
        self.print(buf)
    }
}

impl Field for RawLatitude {
    fn print_field(self, buf: &mut [u8]) -> Result<usize, Refusal> {
        self.print(buf)
    }
}

impl Field for RawLongitude {
    fn print_field(self, buf: &mut [u8]) -> Result<usize, Refusal> {
        self.print(buf)
    }
}

impl Field for RawPosition {
    fn print_field(self, buf: &mut [u8]) -> Result<usize, Refusal> {
        self.print(buf)
    }
}

impl Field for Extension {
    fn print_field(self, buf: &mut [u8]) -> Result<usize, Refusal> {
        self.print(buf)
    }
}

// The field that was read or made, printed into the lent bytes, or why there is none.
fn answer<F: Field>(rt: HostRuntime, read: Result<F, Refusal>, buf: &mut [u8]) {
    match read {
        Ok(field) => {
            let p = field.print_field(buf);
            say::printed(rt, p, buf);
        }
        Err(no) => say::refused(rt, no),
    }
}

fn answer_time(rt: HostRuntime, read: Result<Time, Refusal>) {
    answer(rt, read, &mut [b'.'; 8]);
}

fn time(rt: HostRuntime, text: &[u8]) {
    say::asked(rt, b"time", text);
    answer_time(rt, Time::parse(text));
}

fn answer_date(rt: HostRuntime, read: Result<Date, Refusal>) {
    answer(rt, read, &mut [b'.'; 8]);
}

fn date(rt: HostRuntime, text: &[u8]) {
    say::asked(rt, b"date", text);
    answer_date(rt, Date::parse(text));
}

// A latitude or a longitude.
fn answer_axis<A: Axis + Field>(rt: HostRuntime, read: Result<A, Refusal>) {
    answer(rt, read, &mut [b'.'; 10]);
}

fn latitude(rt: HostRuntime, text: &[u8]) {
    say::asked(rt, b"latitude", text);
    answer_axis(rt, RawLatitude::parse(text));
}

fn longitude(rt: HostRuntime, text: &[u8]) {
    say::asked(rt, b"longitude", text);
    answer_axis(rt, RawLongitude::parse(text));
}

fn position(rt: HostRuntime, text: &[u8]) {
    say::asked(rt, b"position", text);
    answer(rt, RawPosition::parse(text), &mut [b'.'; 16]);
}

fn answer_extension(rt: HostRuntime, read: Result<Extension, Refusal>) {
    answer(rt, read, &mut [b'.'; 8]);
}

fn extension(rt: HostRuntime, text: &[u8]) {
    say::asked(rt, b"extension", text);
    answer_extension(rt, Extension::parse(text));
}

// The triple that a maker read by its letter prints. The room is fixed, since there is no heap.
fn maker(rt: HostRuntime, letter: u8) {
    let text = [letter];
    say::asked(rt, b"maker", &text);
    match Manufacturer::parse_single_char(letter).to_triple_char() {
        Some(t) => {
            let mut buf = [0u8; 3];
            t.put(&mut buf, 0);
            say::write(rt, &buf);
        }
        None => {
            say::write(rt, b"-");
        }
    }
    say::write(rt, b"\n");
}

// Times.
pub fn times(rt: HostRuntime) {
    time(rt, b"10153");
    time(rt, b"1015300");
    time(rt, b"10153\xc3");
    time(rt, b"101530");
    time(rt, b"+1+2+3");
    time(rt, b"000060");
    time(rt, b"000061");
    time(rt, b"006100");
    time(rt, b"25xx00");
    time(rt, b"10 530");
    time(rt, b"10156x");
}

// Dates.
pub fn dates(rt: HostRuntime) {
    date(rt, b"000000");
    date(rt, b"311299");
    date(rt, b"320199");
    date(rt, b"011300");
    date(rt, b"32xx00");
    date(rt, b"0107\xc3\xa9");
    date(rt, b"");
}

// Latitudes and longitudes.
pub fn coordinates(rt: HostRuntime) {
    latitude(rt, b"9160000X");
    latitude(rt, b"9160000N");
    latitude(rt, b"4712345N");
    latitude(rt, b"+7+2345S");
    latitude(rt, b"4712345E");
    latitude(rt, b"4712345n");
    latitude(rt, b"04712345N");
    longitude(rt, b"18060000W");
    longitude(rt, b"18100000E");
    longitude(rt, b"01102500E");
    longitude(rt, b"25600000E");
    longitude(rt, b"01165536E");
    longitude(rt, b"0112x345E");
    longitude(rt, b"01102500N");
    longitude(rt, b"011025\xc3\xa9E");
}

// Positions.
pub fn positions(rt: HostRuntime) {
    position(rt, b"4712345N0110250");
    position(rt, b"4712345X01102500E");
    position(rt, b"9100000N18100000E");
    position(rt, b"9000000Nx8100000E");
    position(rt, b"4712345N01102500E");
}

// Fields that are made and not read.
pub fn made(rt: HostRuntime) {
    answer_time(rt, Time::from_hms(24, 60, 60));
    answer_time(rt, Time::from_hms(25, 0, 0));
    answer_date(rt, Date::from_dmy(31, 12, 99));
    answer_date(rt, Date::from_dmy(0, 12, 99));
    answer_date(rt, Date::from_dmy(31, 12, 100));
    answer_axis(rt, RawLatitude::new(90, 59999, Compass::South));
    answer_axis(rt, RawLatitude::new(90, 60000, Compass::South));
    answer_axis(rt, RawLatitude::new(90, 0, Compass::East));
    answer_axis(rt, RawLongitude::new(180, 59999, Compass::West));
    answer_axis(rt, RawLongitude::new(181, 0, Compass::West));
}

// Definitions of extensions.
pub fn extensions(rt: HostRuntime) {
    extension(rt, b"3638FXA");
    extension(rt, b"3636FXA");
    extension(rt, b"3836FXA");
    extension(rt, b"0000\xff\xfe\xfd");
    extension(rt, b"3638FX");
    extension(rt, b"36x8FXA");
    answer_extension(rt, Extension::new(Mnemonic(b'F', b'X', b'A'), 36, 38));
    answer_extension(rt, Extension::new(Mnemonic(b'F', b'X', b'A'), 36, 36));
    answer_extension(rt, Extension::new(Mnemonic(b'F', b'X', b'A'), 2, 38));
    maker(rt, b'G');
    maker(rt, b'X');
}
