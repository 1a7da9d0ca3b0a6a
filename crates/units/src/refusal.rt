// Document 01's refusals, a variant for each number.
ghost use Rattle.std.specs.Prelude.{◌≡◌, ◌++◌, Some, codes, decimal};
ghost use Rattle.units.specs.Said.{number_of};

use std::error::Error;
use std::fmt;

#[derive(Clone, Copy, Debug, PartialEq, Eq)]
pub enum Refusal {
    YearOutside = 1,
    DayOrMinuteOutside,
    TermAbove,
    LongitudeBeyond,
    TangentAbove,
    TooShort,
    RecordCutOff,
    KindUnknown,
    FieldOutside,
    OutOfTurn,
    NotAYear,
    YearAbsent,
}

// The refusal's number.
impl From<Refusal> for u64 {
    ghost from_gives = { λ refusal number. number ≡ number_of refusal };

    fn from(refusal: Refusal) -> u64 {
        refusal as u64
    }
}

impl fmt::Display for Refusal {
    ghost output = { λ refusal. Some (codes "refused " ++ decimal (number_of refusal)) };

    fn fmt<W: fmt::Write>(&self, f: &mut fmt::Formatter<W>) -> fmt::Result {
        write!(f, "refused {}", u64::from(*self))
    }
}

impl Error for Refusal {}
