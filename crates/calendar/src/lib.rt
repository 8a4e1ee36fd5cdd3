// The calendar of two-digit years, which the Rust does not have: its dates take a 30 February.
#![tactic(auto)]

ghost use Rattle.std.specs.Prelude.{◌≡◌};
ghost use Rattle.calendar.specs.Days.{february, days_in_of};

// 29 days in every fourth year.
fn february(year: u8) -> u8
    ensures { result ≡ february year }
{
    if year % 4 == 0 {
        return 29;
    }
    28
}

// How many days a month has; none where there is no such month.
pub fn days_in(month: u8, year: u8) -> u8
    ensures { result ≡ days_in_of month year }
{
    match month {
        1 => 31,
        2 => february(year),
        3 => 31,
        4 => 30,
        5 => 31,
        6 => 30,
        7 => 31,
        8 => 31,
        9 => 30,
        10 => 31,
        11 => 30,
        12 => 31,
        _ => 0,
    }
}
