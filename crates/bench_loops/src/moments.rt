// What bench/ times of moments: the index of a log, and a question for each minute of an hour, by the log's own index
// and by a walk from its start. The two have one answer.
ghost use Rattle.std.specs.Prelude.{◌≡◌};
ghost use Rattle.bench_loops.specs.Moments.{of_first_of, of_moment_of, index_place, moment_sum};

use moment::{find, find_by_walk, index_of};
use moment_fix::Moment;
use std::num::wrapping_add_u64;

#[tactic(auto, unfolding(crate::specs::Moments::of_first_of))]
fn of_first(first: Option<usize>) -> u64
    ensures { result ≡ of_first_of first }
{
    match first {
        None => 0,
        Some(place) => place as u64,
    }
}

#[tactic(auto, unfolding(crate::specs::Moments::of_moment_of))]
fn of_moment(answer: Moment) -> u64
    ensures { result ≡ of_moment_of answer }
{
    match answer {
        Moment::Found(place, _) => place as u64,
        Moment::NoSuchFix => 0,
        Moment::Refused(_) => 0,
    }
}

// The index of a log: what it holds for an hour.
#[tactic(auto, unfolding(crate::specs::Moments::index_place, hours::specs::Hours::held_for, hours::specs::Hours::held))]
pub fn timed_index(log: &[u8], hours: u8) -> u64
    ensures { result ≡ index_place log.now hours }
{
    let index = index_of(log);
    let hour = hours as usize;
    if hour < 25 {
        let held = index.hours[hour];
        let first = held.first;
        return of_first(first);
    }
    0
}

// The same, and a question for each minute of the hour.
#[tactic(auto, unfolding(crate::specs::Moments::moment_sum))]
pub fn timed_moments(log: &[u8], hours: u8, seconds: u8) -> u64
    ensures { result ≡ moment_sum 60 log.now hours seconds }
{
    let index = index_of(log);
    let mut sum: u64 = 0;
    for minute in 0..60 {
        let answer = find(index, log, hours, minute, seconds);
        sum = wrapping_add_u64(sum, of_moment(answer));
    }
    sum
}

// The same questions with no index.
#[tactic(auto, unfolding(crate::specs::Moments::moment_sum))]
pub fn timed_walks(log: &[u8], hours: u8, seconds: u8) -> u64
    ensures { result ≡ moment_sum 60 log.now hours seconds }
{
    let mut sum: u64 = 0;
    for minute in 0..60 {
        let answer = find_by_walk(log, hours, minute, seconds);
        sum = wrapping_add_u64(sum, of_moment(answer));
    }
    sum
}
