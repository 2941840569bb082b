// The calendar: the date of a day number, and the time of day of a count of ticks. A tick is 100 nanoseconds; day 0 is the 1st of January of
// the year 1, and every year is one of the Gregorian calendar. Every number is taken.
#![tactic(auto)]

ghost use Rattle.std.specs.Prelude.{◌≡◌};
ghost use Rattle.calendar.specs.Calendar.{leap_year, days_of_year, days_of_month, year_of, month_of, date_of, clock_of};

// ---- years and months

// Whether the year has a 29th of February.
#[tactic(auto, unfolding(crate::specs::Calendar::leap_year))]
pub fn is_leap_year(year: u64) -> bool
    ensures { result ≡ leap_year year }
{
    if year % 400 == 0 {
        return true;
    }
    if year % 100 == 0 {
        return false;
    }
    year % 4 == 0
}

#[tactic(auto, unfolding(crate::specs::Calendar::days_of_year))]
pub fn days_of_year(year: u64) -> u64
    ensures { result ≡ days_of_year year }
{
    if is_leap_year(year) { 366 } else { 365 }
}

#[tactic(auto, unfolding(crate::specs::Calendar::days_of_month))]
fn days_of_february(year: u64) -> u64
    ensures { result ≡ days_of_month year 2 }
{
    if is_leap_year(year) { 29 } else { 28 }
}

// The days of a month, which is 1 for January; a number that is no month has 31.
#[tactic(auto, unfolding(crate::specs::Calendar::days_of_month))]
pub fn days_of_month(year: u64, month: u64) -> u64
    ensures { result ≡ days_of_month year month }
{
    match month {
        2 => days_of_february(year),
        4 | 6 | 9 | 11 => 30,
        _ => 31,
    }
}

// ---- the date of a day number

// A year, and a day of it: 1 is the 1st of January.
#[derive(Clone, Copy, Debug, PartialEq, Eq)]
pub struct DayOfYear {
    pub year: u64,
    pub day: u64,
}

// Month and day are counted from 1.
#[derive(Clone, Copy, Debug, PartialEq, Eq)]
pub struct Date {
    pub year: u64,
    pub month: u64,
    pub day: u64,
}

// The year in which a day falls, and which of its days it is. No year after 60,000 is looked at: a later day is taken for one of that year. The
// days of all ticks of eight bytes are earlier.
#[tactic(auto, using(crate::specs::Laws::years))]
pub fn year_of(day: u64) -> DayOfYear
    ensures { result ≡ year_of day }
{
    let mut left = day;
    for year in 1..60000 {
        let days = days_of_year(year);
        if left < days {
            return DayOfYear {
                year,
                day: left + 1,
            };
        }
        left -= days;
    }
    DayOfYear {
        year: 60000,
        day: left + 1,
    }
}

// The date of a day of a year. A day past the year's end is one of December.
// Not one loop with `year_of`: days are counted from 0 there and from 1 here, and not every u64 has a number one less or one more that fits.
#[tactic(auto, using(crate::specs::Laws::months))]
pub fn month_of(year: u64, day: u64) -> Date
    ensures { result ≡ month_of year day }
{
    let mut left = day;
    for month in 1..12 {
        let days = days_of_month(year, month);
        if left <= days {
            return Date {
                year,
                month,
                day: left,
            };
        }
        left -= days;
    }
    Date {
        year,
        month: 12,
        day: left,
    }
}

#[tactic(auto, unfolding(crate::specs::Calendar::date_of))]
pub fn date_of(day: u64) -> Date
    ensures { result ≡ date_of day }
{
    let d = year_of(day);
    month_of(d.year, d.day)
}

// ---- the time of day

// The time of day, to the tick: ten million ticks are a second.
#[derive(Clone, Copy, Debug, PartialEq, Eq)]
pub struct Clock {
    pub hours: u64,
    pub minutes: u64,
    pub seconds: u64,
    pub ticks: u64,
}

#[tactic(auto, unfolding(crate::specs::Calendar::clock_of))]
pub fn clock_of(ticks: u64) -> Clock
    ensures { result ≡ clock_of ticks }
{
    Clock {
        hours: ticks / 36000000000 % 24,
        minutes: ticks / 600000000 % 60,
        seconds: ticks / 10000000 % 60,
        ticks: ticks % 10000000,
    }
}
