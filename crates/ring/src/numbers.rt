// Numbers as the picture writes them. A value out of its kind has no such number.
use std::fmt;
use units::Refusal;

// The year's number in the common era, or before it, where there is no year 0.
#[derive(Clone, Copy)]
pub(crate) enum YearNumber {
    Common(u64),
    BeforeCommon(u64),
}

impl YearNumber {
    // N = -1,684, counted as 316, is the last year before the year 1, 1 before the common era.
    pub(crate) fn of(n: i64) -> Result<YearNumber, Refusal> {
        let y = units::year_index(n)?;
        if 316 < y {
            Ok(YearNumber::Common(y - 316))
        } else {
            Ok(YearNumber::BeforeCommon(317 - y))
        }
    }
}

impl fmt::Display for YearNumber {
    fn fmt<W: fmt::Write>(&self, f: &mut fmt::Formatter<W>) -> fmt::Result {
        match self {
            YearNumber::Common(y) => write!(f, "{y}"),
            YearNumber::BeforeCommon(y) => write!(f, "{y} before the common era"),
        }
    }
}

// The number of a term's day: it has at most four digits.
#[derive(Clone, Copy)]
pub(crate) struct Day(i64);

impl Day {
    pub(crate) fn of(day: i64) -> Option<Day> {
        (units::size(day) < 10_000).then_some(Day(day))
    }
}

impl fmt::Display for Day {
    fn fmt<W: fmt::Write>(&self, f: &mut fmt::Formatter<W>) -> fmt::Result {
        write!(f, "{}", self.0)
    }
}

// Hour and minute of a minute of the day.
#[derive(Clone, Copy)]
pub(crate) struct Clock {
    hour: u64,
    minute: u64,
}

impl Clock {
    pub(crate) fn of(minute: u64) -> Option<Clock> {
        (minute < 1_440).then_some(Clock {
            hour: minute / 60,
            minute: minute % 60,
        })
    }
}

impl fmt::Display for Clock {
    fn fmt<W: fmt::Write>(&self, f: &mut fmt::Formatter<W>) -> fmt::Result {
        write!(f, "{:02}:{:02}", self.hour, self.minute)
    }
}
