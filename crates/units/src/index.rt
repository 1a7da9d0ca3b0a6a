// A signed N or day is tested once and counted from the least allowed on: its index.
ghost use Rattle.std.specs.Prelude.{◌≡◌};
ghost use Rattle.units.specs.IndexAnswers.{counted_from, year_index_answer, day_index_answer, no_room};
ghost use Rattle.units.specs.Said.{said_number};

use crate::refusal::Refusal;

// How far z lies from the least allowed, or the refusal of what lies outside.
fn counted(z: i64, least: i64, most: i64, refusal: Refusal) -> Result<u64, Refusal>
    ensures { result ≡ counted_from least most refusal z }
{
    if z < least || most < z {
        return Err(refusal);
    }
    Ok(z.abs_diff(least))
}

// N + 2,000, or refusal 1.
#[tactic(auto, using(crate::proofs::IndexAnswers::counted_year))]
pub fn year_index(n: i64) -> Result<u64, Refusal>
    ensures { said_number result ≡ year_index_answer n }
{
    counted(n, -2_000, 2_000, Refusal::YearOutside)
}

// d + 4, or refusal 2.
#[tactic(auto, using(crate::proofs::IndexAnswers::counted_day))]
pub fn day_index(d: i64) -> Result<u64, Refusal>
    ensures { said_number result ≡ day_index_answer d }
{
    counted(d, -4, 370, Refusal::DayOrMinuteOutside)
}

// The refusal where a list or a buffer has no room for the year n: 1, then 6.
#[tactic(auto, using(crate::proofs::IndexAnswers::refused_or_short))]
pub fn no_room(n: i64) -> Refusal
    ensures { result ≡ no_room n }
{
    year_index(n).err().unwrap_or(Refusal::TooShort)
}
