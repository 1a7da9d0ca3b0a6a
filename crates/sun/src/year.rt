// A year's mean solstice, duty mansion and root.
ghost use Rattle.std.specs.Prelude.{◌≡◌, ◌≤◌};
ghost use Rattle.law.specs.Document.{year_answer};
ghost use Rattle.motion.specs.Working.{solstice_of, root_from, root_of, year_of};
ghost use Rattle.units.specs.IndexAnswers.{year_index_answer};
ghost use Rattle.sun.specs.Said.{said_counted, values_of_year, said_year};

use crate::constants::{DAILY, DAY, DAY_EPOCH, YEAR};
use crate::midnight::CountedYear;
use units::Refusal;

#[derive(Clone, Copy, Debug, PartialEq, Eq)]
pub struct Year {
    pub day_name: u64,
    pub fraction: u64,
    pub mansion: u64,
    pub root: u64,
}

// 730,800 days are whole sixties and whole twenty-eights, and more than 2,000 years.
const LIFTED_EPOCH: u64 = DAY_EPOCH + (730_800 * DAY - 2_000 * YEAR);

// The mean solstice, 730,800 days more than document 01 counts.
#[tactic(auto, unfolding(motion::specs::Working::solstice_of))]
fn solstice(y: u64) -> u64
    requires { y ≤ 4_000 }
    ensures { result ≡ solstice_of y }
{
    LIFTED_EPOCH + y * YEAR
}

// Of the solstice, lifted. The daily motion is split at a thousand million, so that no product passes 64 bits.
fn root(solstice: u64) -> u64
    ensures { (result ≡ root_from solstice) × (result ≤ 212_899_831_014) }
{
    let rest = DAY - solstice % DAY;
    rest * (DAILY / DAY) + units::half_up(rest * (DAILY % DAY), DAY)
}

#[tactic(auto, unfolding(motion::specs::Working::root_of))]
fn root_of(y: u64) -> u64
    requires { y ≤ 4_000 }
    ensures { (result ≡ root_of y) × (result ≤ 212_899_831_014) }
{
    root(solstice(y))
}

impl CountedYear {
    // Of the year n, or refusal 1.
    pub(crate) fn of(n: i64) -> Result<CountedYear, Refusal>
        ensures { said_counted result ≡ year_index_answer n }
    {
        let y = units::year_index(n)?;
        Ok(CountedYear {
            y,
            root: root_of(y),
        })
    }
}

#[tactic(auto, unfolding(motion::specs::Working::year_of, motion::specs::Working::root_of))]
pub(crate) fn year_in(counted: CountedYear) -> Year
    ensures { values_of_year result ≡ year_of counted.y }
{
    let at = solstice(counted.y);
    let days = at / DAY;
    Year {
        day_name: days % 60,
        fraction: at % DAY,
        // two days before the day name's epoch, plus one: 27 more, taken by 28
        mansion: (days + 27) % 28,
        root: counted.root,
    }
}

pub fn year_of(n: i64) -> Result<Year, Refusal>
    ensures { said_year result ≡ year_answer n }
{
    let year = CountedYear::of(n)?;
    Ok(year_in(year))
}
