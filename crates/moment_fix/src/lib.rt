// What a moment asks of a fix, its hours and whether it has the time; and the answer, with its number.
#![tactic(auto)]

ghost use Rattle.std.specs.Prelude.{◌≡◌};
ghost use Rattle.moment_fix.specs.Fix.{hour_of_lem, same_time_of, with_time_of, moment_number};

use b_record::{BRecord, FixValid};
use text::refusal::Refusal;
use time::Time;

// The place and the record of the fix; no fix has that time; or it is no time.
// Each of the three has its number: a `Result` of an `Option` would say the same and nest the matches.
#[derive(Clone, Copy)]
pub enum Moment {
    Found(usize, BRecord),
    NoSuchFix,
    Refused(Refusal),
}

// The hours of a fix, marked A or V; a line that is none has 25, which no index holds.
#[tactic(auto, unfolding(crate::specs::Fix::hour_of_lem))]
pub fn hour_of(fix: Option<BRecord>) -> usize
    ensures { result ≡ hour_of_lem fix }
{
    match fix {
        None => 25,
        Some(seen) => {
            let valid = seen.fix_valid;
            let hours = seen.timestamp.hours as usize;
            match valid {
                FixValid::Valid => hours,
                FixValid::NavWarning => hours, // a fix marked V is a fix
            }
        }
    }
}

// Hours, minutes and seconds are the same.
fn same_time(a: Time, b: Time) -> bool
    ensures { result ≡ same_time_of a b }
{
    a.hours == b.hours && a.minutes == b.minutes && a.seconds == b.seconds
}

// A fix, marked A or V, if it has that time.
#[tactic(auto, unfolding(crate::specs::Fix::with_time_of, text::specs::Res::pick))]
pub fn with_time(fix: Option<BRecord>, time: Time) -> Option<BRecord>
    ensures { result ≡ with_time_of time fix }
{
    match fix {
        Some(seen) if same_time(seen.timestamp, time) => Some(seen),
        _ => None,
    }
}

impl Moment {
    // The number that the paper gives it.
    #[tactic(auto, unfolding(crate::specs::Fix::moment_number))]
    pub fn number(self) -> u8
        ensures { result ≡ moment_number self }
    {
        match self {
            Moment::Found(_, _) => 0,
            Moment::NoSuchFix => 19,
            Moment::Refused(no) => no.number(),
        }
    }
}
