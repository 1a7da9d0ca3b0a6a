// The year, places, terms and local time.
ghost use Rattle.law.specs.Document.{epicycles, year_answer, equation_answer, mean_answer, true_answer, term_answer, crossing_answer, terms_answer, local_answer};
ghost use Rattle.bhromilun.specs.Told.{Told, lent};
ghost use Rattle.bhromilun.specs.Reckoning.{ToldYear, ToldTerm, ToldCrossing, ToldTerms, ToldLocal};

use crate::answer::tell;
use crate::columns::{counts_of, days_of, minutes_of};
use units::ArcSeconds;

// The mean solstice of a year: its day name, its fraction of a day in thousand-millionths, and the duty mansion.
#[unsafe(no_mangle)]
pub extern "C" fn bhromilun_year(
    n: i64,
    day_name: &mut u64,
    fraction: &mut u64,
    mansion: &mut u64,
) -> u64
    ensures { ToldYear (year_answer n) result (lent day_name) (lent fraction) (lent mansion) }
{
    tell(
        sun::year_of(n),
        &mut |year| {
            *day_name = year.day_name;
            *fraction = year.fraction;
            *mansion = year.mansion;
        },
    )
}

// The equation of centre at an anomaly, in units.
#[unsafe(no_mangle)]
pub extern "C" fn bhromilun_equation(anomaly: i64, equation: &mut i64) -> u64
    ensures { Told (equation_answer epicycles anomaly) result (lent equation) }
{
    tell(sun::equation_at(anomaly), &mut |units| *equation = units)
}

// The mean place at a day's midnight, in units, in the circle.
#[unsafe(no_mangle)]
pub extern "C" fn bhromilun_mean_place(n: i64, day: i64, place: &mut u64) -> u64
    ensures { Told (mean_answer n day) result (lent place) }
{
    tell(sun::mean_place(n, day), &mut |units| *place = units)
}

// The true place at a day's midnight, in units, in the circle.
#[unsafe(no_mangle)]
pub extern "C" fn bhromilun_true_place(n: i64, day: i64, place: &mut u64) -> u64
    ensures { Told (true_answer epicycles n day) result (lent place) }
{
    tell(sun::true_place(n, day), &mut |units| *place = units)
}

// The day and minute of a year's term k as they are printed, and the midnights visited to find them.
#[unsafe(no_mangle)]
pub extern "C" fn bhromilun_term(
    n: i64,
    k: u64,
    day: &mut i64,
    minute: &mut u64,
    count: &mut u64,
) -> u64
    ensures { ToldTerm (term_answer epicycles n k) result (lent day) (lent minute) (lent count) }
{
    tell(
        sun::term_of(n, k),
        &mut |term| {
            *day = term.day;
            *minute = term.minute;
            *count = term.count;
        },
    )
}

// The day and minute of the sun's crossing of term k's mark, the minute cut off and not rounded.
#[unsafe(no_mangle)]
pub extern "C" fn bhromilun_crossing(n: i64, k: u64, day: &mut i64, minute: &mut u64) -> u64
    ensures { ToldCrossing (crossing_answer epicycles n k) result (lent day) (lent minute) }
{
    tell(
        sun::crossing_of(n, k),
        &mut |crossing| {
            *day = crossing.day;
            *minute = crossing.minute;
        },
    )
}

// The year call: the printed day and minute of each of a year's 24 terms, and the midnights visited to find them.
#[unsafe(no_mangle)]
pub extern "C" fn bhromilun_terms(
    n: i64,
    days: &mut [i64; 24],
    minutes: &mut [u64; 24],
    counts: &mut [u64; 24],
) -> u64
    ensures { ToldTerms (terms_answer epicycles n) result (lent days) (lent minutes) (lent counts) }
{
    tell(
        sun::work_year(n),
        &mut |worked| {
            *days = days_of(&worked.terms);
            *minutes = minutes_of(&worked.terms);
            *counts = counts_of(&worked.terms);
        },
    )
}

// Day and minute at a place, by its longitude from the capital in seconds of arc, east positive.
#[unsafe(no_mangle)]
pub extern "C" fn bhromilun_local_time(
    day: i64,
    minute: u64,
    longitude: i64,
    day_there: &mut i64,
    minute_there: &mut u64,
) -> u64
    ensures { ToldLocal (local_answer day minute longitude) result (lent day_there) (lent minute_there) }
{
    tell(
        local::local_time(day, minute, ArcSeconds::of(longitude)),
        &mut |time| {
            *day_there = time.day;
            *minute_there = time.minute;
        },
    )
}
