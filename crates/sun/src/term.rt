// The day and minute of a term, and the midnights visited to find them: as the almanac prints them, rounded, and as the sun's crossing
// of the mark, the minute cut off.
ghost use Rattle.std.specs.Prelude.{◌≡◌, ◌≤◌};
ghost use Rattle.reasoning.specs.Answer.{value};
ghost use Rattle.law.specs.Document.{epicycles, cut_off, rounded, term_answer, crossing_answer};
ghost use Rattle.motion.specs.Working.{place_of, find_from, find_of, find_answer, crossing_of, print_of, term_of};
ghost use Rattle.sun.specs.Walks.{Underway};
ghost use Rattle.sun.specs.Said.{said_walked, said_term, said_crossing, values_of_found, values_of_term, values_of_crossing};

use crate::constants::{DAILY, MINUTE};
use crate::equation::Lent;
use crate::found::Found;
use crate::midnight::{CountedYear, Midnight};
use crate::place::LIFT;
use units::Refusal;

// A term's mark is at 15 degrees times its number.
const FIFTEEN_DEGREES: u64 = 15 * 60 * MINUTE;

#[derive(Clone, Copy, Debug, PartialEq, Eq)]
pub struct TermRecord {
    pub day: i64,
    pub minute: u64,
    pub count: u64,
}

// What an array of records begins with.
pub const ZERO_RECORD: TermRecord = TermRecord {
    day: 0,
    minute: 0,
    count: 0,
};

// The day whose midnight is the last not past the mark, and the minute cut off. The print may be one day later.
#[derive(Clone, Copy, Debug, PartialEq, Eq)]
pub struct Crossing {
    pub day: i64,
    pub minute: u64,
}

impl Found {
    // The minute of the mark on its day, cut off.
    fn cut_minute(self) -> u64
        ensures { result ≡ cut_off self.gone self.step }
    {
        1_440 * self.gone / self.step
    }

    // The same, half or more rounded up: 1,440 at most.
    fn rounded_minute(self) -> u64
        ensures { result ≡ rounded self.gone self.step }
    {
        units::half_up(1_440 * self.gone, self.step)
    }

    // As the almanac prints it: half a minute or more rounds up, and minute 1,440 is minute 0 of the next day.
    fn printed(self) -> TermRecord
        ensures { values_of_term result ≡ print_of (values_of_found self) }
    {
        let minute = self.rounded_minute();
        let day = (self.day as i64) - 4;
        let count = self.count;
        if minute == 1_440 {
            return TermRecord {
                day: day + 1,
                minute: 0,
                count,
            };
        }
        TermRecord { day, minute, count }
    }

    // As document 01 has it: the minute cut off.
    fn cut_off(self) -> Crossing
        ensures { values_of_crossing result ≡ crossing_of (values_of_found self) }
    {
        Crossing {
            day: (self.day as i64) - 4,
            minute: self.cut_minute(),
        }
    }
}

// One midnight further each time. `before` is the place of the midnight before j, once one was visited.
// The places rise and the mark lies within those left, so that they never run out short of it.
fn walk(
    year: CountedYear,
    mark: u64,
    left: u64,
    j: u64,
    before: u64,
    count: u64,
    tables: Lent<'_>,
) -> Result<Found, Refusal>
    requires { Underway year.y mark left j before count }
    ensures { said_walked result ≡ value (find_from (place_of epicycles year.y) mark left j count) }
{
    let at = Midnight { year, day: j };
    let place = at.lifted_place(tables)?;
    let visited = count + 1;
    if mark < place {
        return Ok(Found {
            day: j - 1,
            gone: mark - before,
            step: place - before,
            count: visited,
        });
    }
    walk(year, mark, left - 1, j + 1, place, visited, tables)
}

// From three days before the whole part of (mark - root) / daily motion, with eight midnights left.
fn find(year: CountedYear, k: u64, tables: Lent<'_>) -> Result<Found, Refusal>
    requires { k ≤ 23 }
    ensures { said_walked result ≡ value (find_of epicycles year.y k) }
{
    let mark = k * FIFTEEN_DEGREES;
    let start = (mark + 4 * DAILY - year.root) / DAILY - 3;
    walk(year, mark + LIFT, 8, start, 0, 0, tables)
}

// The search for the term k of the year n.
fn find_at(n: i64, k: u64) -> Result<Found, Refusal>
    ensures { said_walked result ≡ find_answer epicycles n k }
{
    let year = CountedYear::of(n)?;
    if 23 < k {
        return Err(Refusal::TermAbove);
    }
    let mut sines = [0; 541];
    tables::rebuild_sines(&mut sines);
    let tangents = tables::tangent_table();
    find(year, k, Lent::of(&sines, &tangents))
}

pub(crate) fn term_in(year: CountedYear, k: u64, tables: Lent<'_>) -> Result<TermRecord, Refusal>
    requires { k ≤ 23 }
    ensures { said_term result ≡ value (term_of epicycles year.y k) }
{
    let found = find(year, k, tables)?;
    Ok(found.printed())
}

// The term k of the year n, as it is printed.
pub fn term_of(n: i64, k: u64) -> Result<TermRecord, Refusal>
    ensures { said_term result ≡ term_answer epicycles n k }
{
    let found = find_at(n, k)?;
    Ok(found.printed())
}

// The sun's crossing of the mark of term k of the year n: demand 3's day, and the minute cut off.
pub fn crossing_of(n: i64, k: u64) -> Result<Crossing, Refusal>
    ensures { said_crossing result ≡ crossing_answer epicycles n k }
{
    let found = find_at(n, k)?;
    Ok(found.cut_off())
}
