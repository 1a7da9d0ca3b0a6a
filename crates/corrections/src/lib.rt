// A sheet of corrections beside the main book: a year is handed out from the corrections if it is there, else from the main book, as
// that part of the book. Both books are checked whole, corrections first, and each is gone over once. The call has no `requires`.
#![tactic(auto)]

ghost use Rattle.std.specs.Prelude.{Some};
ghost use Rattle.corrections.specs.Parts.{HandedOut, HandedOf};
ghost use Rattle.corrections.specs.Shown.{which_text, no_year_text};

use book::Fault;
use std::error::Error;
use std::fmt;
use units::Refusal;

// One of the two lent books.
#[derive(Clone, Copy, Debug, PartialEq, Eq)]
pub enum Which {
    Corrections,
    Main,
}

impl fmt::Display for Which {
    ghost output = { λ which. Some (which_text which) };

    fn fmt<W: fmt::Write>(&self, f: &mut fmt::Formatter<W>) -> fmt::Result {
        match self {
            Which::Corrections => write!(f, "corrections"),
            Which::Main => write!(f, "main"),
        }
    }
}

// The year's part, the book that it came from, and where it starts and ends there.
#[derive(Clone, Copy)]
pub struct CorrectedYear<'a> {
    pub part: &'a [u8],
    pub which: Which,
    pub start: usize,
    pub end: usize,
}

// Why no year is handed out: the book at fault and its fault, or refusal 1 or 12.
#[derive(Clone, Copy, Debug, PartialEq, Eq)]
pub enum NoYear {
    Unsound(Which, Fault),
    Refused(Refusal),
}

impl fmt::Display for NoYear {
    ghost output = { λ why. Some (no_year_text why) };

    fn fmt<W: fmt::Write>(&self, f: &mut fmt::Formatter<W>) -> fmt::Result {
        match self {
            NoYear::Unsound(which, fault) => write!(f, "{which} {fault}"),
            NoYear::Refused(refusal) => write!(f, "{refusal}"),
        }
    }
}

impl Error for NoYear {}

// The year as seeking in one of the books hands it out.
#[tactic(auto, using(book::proofs::SeekFinds::part_found))]
fn year_in<'a>(which: Which, lent: &'a [u8], n: i64) -> Result<CorrectedYear<'a>, NoYear>
    ensures { HandedOf which lent.entry n result }
{
    match book::seek_year(lent, n) {
        Ok(found) => Ok(CorrectedYear {
            part: &lent[found.start..found.end],
            which,
            start: found.start,
            end: found.end,
        }),
        Err(book::NoYear::Unsound(fault)) => Err(NoYear::Unsound(which, fault)),
        Err(book::NoYear::Refused(refusal)) => Err(NoYear::Refused(refusal)),
    }
}

// Where the corrections have the year, the main book is still checked. Refused 1 there, it is refused 1 in the main book too.
#[tactic(auto, using(crate::proofs::OneBook::one_book))]
pub fn corrected_year<'a>(
    corrections: &'a [u8],
    main: &'a [u8],
    n: i64,
) -> Result<CorrectedYear<'a>, NoYear>
    ensures { HandedOut corrections.entry main.entry n result }
{
    match year_in(Which::Corrections, corrections, n) {
        Ok(year) => {
            book::check_book(main).map_err(|fault| NoYear::Unsound(Which::Main, fault))?;
            Ok(year)
        }
        Err(NoYear::Refused(_)) => year_in(Which::Main, main, n),
        unsound => unsound,
    }
}
