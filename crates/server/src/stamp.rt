// The time at the head of a line on standard error.
ghost use Rattle.std.specs.Prelude.{◌≤◌};

use std::fmt;
use std::time::Clock;

const DAY_SECONDS: u64 = 86_400;

const FIRST_YEAR: u64 = 1970;

// No clock counts further.
const LAST_YEAR: u64 = 9999;

const LAST_MONTH: u64 = 12;

/// When a line is told: a time of UTC and a space, as `2026-11-30T10:40:01Z `, or nothing if the clock can't be read.
#[derive(Clone, Copy)]
pub(crate) struct Stamp {
    // since the first of January 1970
    seconds: Option<u64>,
}

impl Stamp {
    pub(crate) fn now(clock: &impl Clock) -> Stamp {
        let seconds = match clock.since_1970() {
            Ok(since) => Some(since.as_secs()),
            Err(_) => None,
        };
        Stamp { seconds }
    }
}

impl fmt::Display for Stamp {
    fn fmt<W: fmt::Write>(&self, f: &mut fmt::Formatter<W>) -> fmt::Result {
        let Some(seconds) = self.seconds else {
            return Ok(());
        };
        let (year, month, day) = date(seconds / DAY_SECONDS);
        let (hour, minute, second) = (seconds / 3_600 % 24, seconds / 60 % 60, seconds % 60);
        write!(
            f,
            "{year:04}-{month:02}-{day:02}T{hour:02}:{minute:02}:{second:02}Z "
        )
    }
}

// The year, the month and the day, so many days after the first of January 1970.
fn date(days: u64) -> (u64, u64, u64) {
    let mut left = days;
    for year in FIRST_YEAR..LAST_YEAR {
        let length = 365 + leap_days(year);
        if left < length {
            let (month, day) = month_and_day(left, leap_days(year));
            return (year, month, day);
        }
        left -= length;
    }
    (LAST_YEAR, 1, 1)
}

// How many days the year has more than a common one.
fn leap_days(year: u64) -> u64
    ensures { result ≤ 1 }
{
    if year % 4 == 0 && (year % 100 != 0 || year % 400 == 0) {
        1
    } else {
        0
    }
}

// How many days the month has in a year with so many leap days.
fn month_days(month: u64, leap_days: u64) -> u64
    requires { leap_days ≤ 1 }
    ensures { result ≤ 31 }
{
    match month {
        2 => 28 + leap_days,
        4 | 6 | 9 | 11 => 30,
        _ => 31,
    }
}

// The month and the day, so many days after the first of a year with so many leap days.
fn month_and_day(days: u64, leap_days: u64) -> (u64, u64)
    requires { leap_days ≤ 1 }
{
    let mut left = days;
    for month in 1..LAST_MONTH {
        let length = month_days(month, leap_days);
        if left < length {
            return (month, left + 1);
        }
        left -= length;
    }
    (LAST_MONTH, left.saturating_add(1))
}
