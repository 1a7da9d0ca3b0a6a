// Seeking a year: 1, then the whole book, then 12. The book is gone through once.
ghost use Rattle.std.specs.Prelude.{◌≡◌, ◌≤◌, Some};
ghost use Rattle.law.specs.Book.{book_of, seek_in, if_sound, seek_of};
ghost use Rattle.book.specs.Said.{said_sought};
ghost use Rattle.book.specs.Shown.{no_year_text};
ghost use Rattle.book.specs.Reader.{PartSought};
ghost use Rattle.book.specs.declared.seek.NoYear.TheVariants.{Unsound, Refused};

use crate::fault::Fault;
use crate::year::{START, check_after, next_at};
use std::error::Error;
use std::fmt;
use units::Refusal;

// Where a year's part starts and ends.
#[derive(Clone, Copy)]
pub struct Part {
    pub start: usize,
    pub end: usize,
}

// Why no year is found: the book's fault, or refusal 1 or 12.
#[derive(Clone, Copy, Debug, PartialEq, Eq)]
pub enum NoYear {
    Unsound(Fault),
    Refused(Refusal),
}

impl From<Fault> for NoYear {
    ghost from_gives = { λ fault why. why ≡ Unsound fault };

    fn from(fault: Fault) -> NoYear {
        NoYear::Unsound(fault)
    }
}

impl From<Refusal> for NoYear {
    ghost from_gives = { λ refusal why. why ≡ Refused refusal };

    fn from(refusal: Refusal) -> NoYear {
        NoYear::Refused(refusal)
    }
}

impl fmt::Display for NoYear {
    ghost output = { λ why. Some (no_year_text why) };

    fn fmt<W: fmt::Write>(&self, f: &mut fmt::Formatter<W>) -> fmt::Result {
        match self {
            NoYear::Unsound(fault) => write!(f, "{fault}"),
            NoYear::Refused(refusal) => write!(f, "{refusal}"),
        }
    }
}

impl Error for NoYear {}

// The year whose N + 2,000 is y. Where it is found, the rest of the book is still checked.
#[tactic(auto, using(crate::proofs::seek::SeekSteps::seek_steps))]
fn seek(book: &[u8], y: u64) -> Result<Part, NoYear>
    requires { y ≤ 4_000 }
    ensures { said_sought result ≡ if_sound (book_of book.now) (seek_in y 0 book.now) }
{
    let mut last = START;
    while let Some(year) = next_at(book, last.end, last.least)? {
        if year.least == y + 1 {
            check_after(book, year)?;
            return Ok(Part {
                start: last.end,
                end: year.end,
            });
        }
        last = year;
    }
    Err(NoYear::Refused(Refusal::YearAbsent))
}

#[tactic(auto, using(crate::proofs::seek::SeekSteps::seek_edge))]
pub fn seek_year(book: &[u8], n: i64) -> Result<Part, NoYear>
    ensures { said_sought result ≡ seek_of book.now n }
{
    let y = units::year_index(n)?;
    seek(book, y)
}

// The year's part of the lent book, empty where no year is handed out.
#[tactic(auto, using(crate::proofs::SeekFinds::part_found))]
pub fn year_part(book: &[u8], n: i64) -> &[u8]
    ensures { PartSought book.entry (seek_of book.now n) result }
{
    match seek_year(book, n) {
        Ok(part) => &book[part.start..part.end],
        Err(_) => &book[0..0],
    }
}
