// The date of a local day from 1999-12-31 to 2100-01-01, worked out; and the most days that a month has.
#![tactic(auto)]

ghost use Rattle.std.specs.Prelude.{◌≡◌, ◌<◌};
ghost use Rattle.calendar.specs.Calendar.{date_of, longest};

// A date without its year: month 1 to 12, day 1 to 31.
#[derive(Clone, Copy)]
pub struct Date {
    pub month: u32,
    pub day: u32,
}

// The date n days after 1999-12-31. Years and months are counted from March, so that a leap day is the last of its year.
pub fn local_date(n: u32) -> Date
    requires { n < 36527 }
    ensures { result ≡ date_of n }
{
    // From 1996-03-01, 1,400 days before, a year has 1,461 quarters of a day. A day lies where its last quarter does, so that every
    // fourth year has the leap day.
    let quarters = 4 * (n + 1400) + 3;
    let year_day = quarters % 1461 / 4;
    // Five months have 153 days.
    let from_march = (5 * year_day + 2) / 153;
    let first = (153 * from_march + 2) / 5;
    let month = (from_march + 2) % 12 + 1;
    let day = year_day - first + 1;
    Date { month, day }
}

// The most days that a month has in any year; 0 for a number that is no month.
pub fn longest(month: u32) -> u32
    ensures { result ≡ longest month }
{
    let days = [0u32, 31, 29, 31, 30, 31, 30, 31, 31, 30, 31, 30, 31];
    days.get(month as usize).copied().unwrap_or(0)
}
