// A reader opened on a lent book, that keeps its place: each call hands out the next year as that part of the book.
ghost use Rattle.std.specs.Prelude.{◌≡◌};
ghost use Rattle.book.specs.Reader.{opened, HandsOn};

use crate::fault::Fault;
use crate::year::{Next, START, next_at};

// The book, and the last year that was handed out: where to go on, and what may stand there.
#[derive(Clone, Copy)]
pub struct Reader<'a> {
    book: &'a [u8],
    last: Next,
}

// A year's part of the book, where it ends, and what may follow it.
#[derive(Clone, Copy)]
pub struct Handed<'a> {
    pub part: &'a [u8],
    pub year: Next,
}

// Any year may come first.
pub fn open<'a>(book: &'a [u8]) -> Reader<'a>
    ensures { result ≡ opened book.entry }
{
    Reader { book, last: START }
}

// The next year, or none at the end, or the book's fault; the reader then stays at that end or fault.
#[tactic(auto, using(crate::proofs::BookSteps::year_within))]
pub fn next<'s, 'a>(r: &'s mut Reader<'a>) -> Result<Option<Handed<'a>>, Fault>
    ensures { HandsOn r.old r.new result }
{
    let book = r.book;
    let last = r.last;
    let Some(year) = next_at(book, last.end, last.least)? else {
        return Ok(None);
    };
    r.last = year;
    Ok(Some(Handed {
        part: &book[last.end..year.end],
        year,
    }))
}
