// Going to a moment of a flight: beside a log an index of its hours, and the fix at a time, found by it or by a walk
// from the log's start.
#![tactic(auto)]

ghost use Rattle.std.specs.Prelude.{◌≡◌};
ghost use Rattle.time.specs.Time.{time_of};
ghost use Rattle.moment.specs.Moment.{index_of, found, found_from, by_index, by_walk};

use hours::{Hour, Index};
use moment_fix::{Moment, hour_of, with_time};
use records::fix_in;
use text::refusal::Refusal;
use time::Time;
use walk::turn::read_at;

// The first fix with that time, from a place on: past the log's end there is none, and in the middle of a line the
// rest of it is the first line.
fn search(log: &[u8], from: usize, time: Time) -> Moment
    ensures { result ≡ found (found_from time from log.now) }
{
    let mut place = from;
    while place < log.len() {
        let got = read_at(log, place);
        if let Some(fix) = with_time(fix_in(got.reading), time) {
            return Moment::Found(place, fix);
        }
        place = got.next;
    }
    Moment::NoSuchFix
}

// The index of a log, in one walk that touches no table.
pub fn index_of(log: &[u8]) -> Index
    ensures { result ≡ index_of log.now }
{
    let mut index = Index::new();
    let mut place = 0;
    while place < log.len() {
        let got = read_at(log, place);
        let hour = hour_of(fix_in(got.reading));
        if index.lacks(hour) {
            index.hours[hour] = Hour { first: Some(place) };
        }
        place = got.next;
    }
    index
}

// The answer to a time, or to what was refused for one: the search begins at the place that is held for its hour.
// With the log's own index it is that of the walk from the start.
pub fn answer(index: Index, log: &[u8], time: Result<Time, Refusal>) -> Moment
    ensures { result ≡ by_index index log.now time }
{
    match time {
        Err(no) => Moment::Refused(no),
        Ok(asked) => match index.first_in(asked.hours as usize) {
            None => Moment::NoSuchFix,
            Some(place) => search(log, place, asked),
        },
    }
}

// The first fix with those hours, minutes and seconds, by an index.
pub fn find(index: Index, log: &[u8], hours: u8, minutes: u8, seconds: u8) -> Moment
    ensures { result ≡ by_index index log.now (time_of hours minutes seconds) }
{
    answer(index, log, Time::from_hms(hours, minutes, seconds))
}

// The first fix with those hours, minutes and seconds, by a walk from the log's start.
pub fn find_by_walk(log: &[u8], hours: u8, minutes: u8, seconds: u8) -> Moment
    ensures { result ≡ by_walk log.now (time_of hours minutes seconds) }
{
    match Time::from_hms(hours, minutes, seconds) {
        Err(no_time) => Moment::Refused(no_time),
        Ok(time) => search(log, 0, time),
    }
}
