// Words and numbers of a sheet. Each is read from a place on and says the place behind it; once one is not what should
// stand there, those that follow stay where it was.
ghost use Rattle.std.specs.Prelude.{◌+◌, ◌≤◌, ◌≡◌, false, length, drop};
ghost use Rattle.block_read.specs.Read.{starts_with, read_words_of, read_number_of, read_height_of, read_line_of};
ghost use Rattle.block_read.specs.Block.{read_spot_of};
ghost use Rattle.block_read.specs.Held.{Came, front_in, front_of};

use print::number::put_nat;
use put::put_byte;

// A place in the text, and whether all before it was as it should be. A Result is no plainer here: every reader says a
// place in both cases, so each would hand it back twice, in Ok behind the value and in Err.
#[derive(Clone, Copy)]
pub(crate) struct Place {
    pub at: usize,
    pub good: bool,
}

#[derive(Clone, Copy)]
pub(crate) struct NumberRead {
    pub value: u64,
    pub place: Place,
}

#[derive(Clone, Copy)]
struct HeightRead {
    value: i16,
    place: Place,
}

// A height, whatever its datum, with log number and byte offset.
#[derive(Clone, Copy)]
pub(crate) struct SpotRead {
    pub height: i16,
    pub log: u64,
    pub offset: u64,
    pub place: Place,
}

// The text is not what should stand there.
pub(crate) fn wrong_at(place: Place) -> Place
    ensures { result ≡ record { at = place.at; good = false } }
{
    Place {
        at: place.at,
        good: false,
    }
}

// The words stand at that place.
pub(crate) fn stands(text: &[u8], at: usize, words: &[u8]) -> bool
    requires { at ≤ length text.now }
    ensures { result ≡ starts_with words.now (drop at text.now) }
{
    if text.len() - at < words.len() {
        return false;
    }
    for i in 0..words.len() {
        if text[at + i] != words[i] {
            return false;
        }
    }
    true
}

// The words, and the place behind them.
pub(crate) fn read_words(text: &[u8], from: Place, words: &[u8]) -> Place
    requires { from.at ≤ length text.now }
    ensures { Came text.now from (read_words_of words.now) result tt }
{
    if !from.good {
        return from;
    }
    if !stands(text, from.at, words) {
        return wrong_at(from);
    }
    Place {
        at: from.at + words.len(),
        good: true,
    }
}

// The value of the digits that stand there; none where it passes 64 bits.
fn front(text: &[u8], at: usize) -> Option<u64>
    requires { at ≤ length text.now }
    ensures { front_in result ≡ front_of (drop at text.now) }
{
    let mut value: u64 = 0;
    for i in at..text.len() {
        let b = text[i];
        if b < b'0' {
            return Some(value);
        }
        if b'9' < b {
            return Some(value);
        }
        let digit = (b - b'0') as u64;
        if (u64::MAX - digit) / 10 < value {
            return None;
        }
        value = value * 10 + digit;
    }
    Some(value)
}

// A number of at most `most`, as it prints, and the byte that closes it.
pub(crate) fn read_number(text: &[u8], from: Place, most: u64, close: u8) -> NumberRead
    requires { from.at ≤ length text.now }
    ensures came { Came text.now from (read_number_of most close) result.place result.value }
    ensures value_le_most { result.value ≤ most }
{
    let Some(value) = front(text, from.at) else {
        return NumberRead {
            value: 0,
            place: wrong_at(from),
        };
    };
    if most < value {
        return NumberRead {
            value: 0,
            place: wrong_at(from),
        };
    }
    let mut printed = [0u8; 24];
    let at_close = put_nat(&mut printed, 0, value, 1);
    let end = put_byte(&mut printed, at_close, close);
    NumberRead {
        value,
        place: read_words(text, from, &printed[0..end]),
    }
}

// A height, as it prints, and a space.
fn read_height(text: &[u8], from: Place) -> HeightRead
    requires { from.at ≤ length text.now }
    ensures { Came text.now from read_height_of result.place result.value }
{
    let minus = read_words(text, from, b"-");
    if !minus.good {
        let up = read_number(text, from, 32767, b' ');
        let place = up.place;
        return HeightRead {
            value: up.value as i16,
            place,
        };
    }
    let down = read_number(text, minus, 32768, b' ');
    let place = down.place;
    if down.value == 0 {
        return HeightRead {
            value: 0,
            place: wrong_at(minus),
        };
    }
    HeightRead {
        value: (0 - (down.value as i32)) as i16,
        place,
    }
}

// A line of words and a number.
pub(crate) fn read_line(text: &[u8], from: Place, words: &[u8]) -> NumberRead
    requires { from.at ≤ length text.now }
    ensures { Came text.now from (read_line_of words.now) result.place result.value }
{
    let at_number = read_words(text, from, words);
    read_number(text, at_number, u64::MAX, b'\n')
}

// A line of words, a height and its place.
pub(crate) fn read_spot(text: &[u8], from: Place, words: &[u8]) -> SpotRead
    requires { from.at ≤ length text.now }
    ensures { Came text.now from (read_spot_of words.now) result.place
        (result.height, (result.log, result.offset)) }
{
    let at_height = read_words(text, from, words);
    let height = read_height(text, at_height);
    let at_log = read_words(text, height.place, b"at ");
    let log = read_number(text, at_log, u64::MAX, b':');
    let offset = read_number(text, log.place, u64::MAX, b'\n');
    let place = offset.place;
    SpotRead {
        height: height.value,
        log: log.value,
        offset: offset.value,
        place,
    }
}
