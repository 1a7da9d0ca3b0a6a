// A year at a byte of a book, the reader's step from year to year, and the whole book.
ghost use Rattle.std.specs.Prelude.{◌≡◌, ◌+◌, drop};
ghost use Rattle.law.specs.Book.{sound, head_size, record_then, year_from, book_from, book_of, next_at};
ghost use Rattle.book.specs.Said.{said_due, said_checked, said_next};

use crate::bytes::two_at;
use crate::fault::Fault;
use crate::record::{Due, check_record};
use units::Refusal;

// The byte after the record that starts at a byte. A book that ends there, inside a year, is out of turn.
#[inline(always)]
fn record_at(book: &[u8], at: usize, due: Due) -> Result<usize, Fault>
    ensures { said_checked result ≡ record_then (drop at book.now) (said_due due) at (sound (at + head_size (drop at book.now))) }
{
    if book.len() <= at {
        return Err(Fault {
            refusal: Refusal::OutOfTurn,
            byte: at,
        });
    }
    let size = check_record(&book[at..], due).map_err(|refusal| Fault { refusal, byte: at })?;
    Ok(at + size)
}

// The byte after the year that starts at a byte, where N + 2,000 is to be at least so much.
#[tactic(auto, using(crate::proofs::YearSteps::year_steps))]
pub(crate) fn year_at(book: &[u8], at: usize, least: u64) -> Result<usize, Fault>
    ensures { said_checked result ≡ year_from least at (drop at book.now) }
{
    let mut end = record_at(book, at, Due::Head(least))?;
    for k in 0..24 {
        end = record_at(book, end, Due::Term(k))?;
    }
    Ok(end)
}

// The byte after the year, and the least N + 2,000 that may follow it.
#[derive(Clone, Copy)]
pub struct Next {
    pub end: usize,
    pub least: u64,
}

// Before the first year: any may come there.
pub(crate) const START: Next = Next { end: 0, least: 0 };

// The next year from a byte on, or none at the end: at first byte 0 and least 0, then what the year before gave.
#[tactic(auto, using(crate::proofs::BookSteps::calls))]
pub fn next_at(book: &[u8], at: usize, least: u64) -> Result<Option<Next>, Fault>
    ensures { said_next result ≡ next_at book.now at least }
{
    if book.len() <= at {
        return Ok(None);
    }
    let end = year_at(book, at, least)?;
    Ok(Some(Next {
        end,
        least: two_at(book, at + 1) + 1,
    }))
}

// The book from after a year on: sound up to this byte.
#[tactic(auto, using(crate::proofs::BookSteps::book_steps))]
pub(crate) fn check_after(book: &[u8], year: Next) -> Result<usize, Fault>
    ensures { said_checked result ≡ book_from year.least year.end (drop year.end book.now) }
{
    let mut last = year;
    while let Some(year) = next_at(book, last.end, last.least)? {
        last = year;
    }
    Ok(last.end)
}

pub fn check_book(book: &[u8]) -> Result<usize, Fault>
    ensures { said_checked result ≡ book_of book.now }
{
    check_after(book, START)
}
