// "By the book": the verdicts on fields that are read, and on values that no reading gives.
use coord::{Axis, RawLatitude, RawLongitude};
use date::Date;
use gate_say as say;
use raw_coord::{Compass, RawCoord};
use text::refusal::Refusal;

fn verdict(rt: HostRuntime, by_the_book: bool) {
    if by_the_book {
        say::write(rt, b"y\n");
    } else {
        say::write(rt, b"n\n");
    }
}

// The verdict on a field that is read, or why there is none.
fn answer(rt: HostRuntime, read: Result<bool, Refusal>) {
    match read {
        Ok(by_the_book) => verdict(rt, by_the_book),
        Err(no) => say::refused(rt, no),
    }
}

fn day(rt: HostRuntime, text: &[u8]) {
    say::asked(rt, b"day", text);
    answer(rt, Date::parse(text).map(Date::by_the_book));
}

fn latitude(rt: HostRuntime, text: &[u8]) {
    say::asked(rt, b"latitude by the book", text);
    answer(rt, RawLatitude::parse(text).map(RawLatitude::by_the_book));
}

fn longitude(rt: HostRuntime, text: &[u8]) {
    say::asked(rt, b"longitude by the book", text);
    answer(rt, RawLongitude::parse(text).map(RawLongitude::by_the_book));
}

// Days that a month has or lacks.
pub fn days(rt: HostRuntime) {
    day(rt, b"290200");
    day(rt, b"290204");
    day(rt, b"290201");
    day(rt, b"290279");
    day(rt, b"290280");
    day(rt, b"300200");
    day(rt, b"310118");
    day(rt, b"300418");
    day(rt, b"310418");
    day(rt, b"310699");
    day(rt, b"310999");
    day(rt, b"311199");
    day(rt, b"311299");
    day(rt, b"000118");
    day(rt, b"010018");
}

// The poles, and the meridian at which east and west meet.
pub fn limits(rt: HostRuntime) {
    latitude(rt, b"9000000N");
    latitude(rt, b"9000001N");
    latitude(rt, b"9030000S");
    latitude(rt, b"8959999S");
    latitude(rt, b"8960000S");
    longitude(rt, b"18000000E");
    longitude(rt, b"18000001W");
    longitude(rt, b"17959999W");
    longitude(rt, b"17960000W");
    longitude(rt, b"09059999E");
}

fn coord(degrees: u8, minute_thousandths: u16, sign: Compass) -> RawCoord {
    RawCoord {
        minute_thousandths,
        degrees,
        sign,
    }
}

fn date(day: u8, month: u8, year: u8) -> Date {
    Date { day, month, year }
}

// Values past the limit, and years of three digits.
pub fn by_hand(rt: HostRuntime) {
    verdict(rt, RawLatitude(coord(91, 0, Compass::North)).by_the_book());
    verdict(rt, RawLatitude(coord(90, 0, Compass::North)).by_the_book());
    verdict(rt, RawLongitude(coord(181, 0, Compass::West)).by_the_book());
    verdict(rt, RawLongitude(coord(91, 1, Compass::West)).by_the_book());
    verdict(rt, date(1, 1, 100).by_the_book());
    verdict(rt, date(1, 13, 99).by_the_book());
    verdict(rt, date(29, 2, 96).by_the_book());
}
