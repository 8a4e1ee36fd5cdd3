// The earliest time and the latest.
ghost use Rattle.std.specs.Prelude.{◌≤◌, length};
ghost use Rattle.report.specs.Peak.{range_in};
ghost use Rattle.block_read.specs.Block.{read_time_of, read_times_of};
ghost use Rattle.block_read.specs.Held.{Came};

use crate::number::{Place, read_number, read_words};
use report::peak::TimeRange;
use report::range::Extremes;

#[derive(Clone, Copy)]
struct TimeRead {
    value: u32,
    place: Place,
}

#[derive(Clone, Copy)]
pub(crate) struct TimesRead {
    pub times: TimeRange,
    pub place: Place,
}

// A time behind its words.
fn read_time(text: &[u8], from: Place, words: &[u8]) -> TimeRead
    requires { from.at ≤ length text.now }
    ensures { Came text.now from (read_time_of words.now) result.place result.value }
{
    let at_time = read_words(text, from, words);
    let time = read_number(text, at_time, 4294967295, b'\n');
    TimeRead {
        value: time.value as u32,
        place: time.place,
    }
}

// No times; or the earliest and then the latest.
pub(crate) fn read_times(text: &[u8], from: Place) -> TimesRead
    requires { from.at ≤ length text.now }
    ensures { Came text.now from read_times_of result.place (range_in result.times) }
{
    let none = read_words(text, from, b"time none\n");
    if none.good {
        return TimesRead {
            times: None,
            place: none,
        };
    }
    let first = read_time(text, from, b"time first ");
    let last = read_time(text, first.place, b"time last ");
    TimesRead {
        times: Some(Extremes {
            high: last.value,
            low: first.value,
        }),
        place: last.place,
    }
}
