// A partner's book: is each of its years what the bureau reckoned, and if not, where is the first record that isn't. The book is checked
// whole, and then gone over once more; each year is reckoned once. The call has no `requires`.
#![tactic(auto)]

ghost use Rattle.std.specs.Prelude.{false, ◌≡◌, ◌+◌, ◌≤◌, ◌^◌, length, get_or};
ghost use Rattle.law.specs.Document.{epicycles, bad_day};
ghost use Rattle.law.specs.Book.{two_at};
ghost use Rattle.sun.specs.Said.{values_of_term};
ghost use Rattle.verify.specs.Verify.{term_differs, year_verdict, verdict_of};
ghost use Rattle.verify.specs.Said.{said_year, said_verdict};

use book::{Fault, byte_at, two_at};
use sun::TermRecord;

// Ours; or the byte where the first record starts that isn't.
#[derive(Clone, Copy, Debug, PartialEq, Eq)]
pub enum Verdict {
    Ours,
    NotOurs(usize),
}

// A term's record beside a term.
fn term_differs(bytes: &[u8], term: TermRecord) -> bool
    requires { bad_day term.day ≡ false }
    ensures { result ≡ term_differs bytes.now (values_of_term term) }
{
    (two_at(bytes, 2) as i64) - 4 != term.day || two_at(bytes, 4) != term.minute
}

// The part of a sound year, which starts at a byte of the book: the byte of its first record that isn't ours, if there is one.
// Its N is never refused.
fn year_verdict(part: &[u8], at: usize) -> Option<usize>
    requires { (at + 149 ≤ 2 ^ 63) × (length part.now ≡ 149) × (get_or part.now 0 0 ≡ 1) × (two_at part.now 1 ≤ 4_000) }
    ensures { said_year result ≡ year_verdict epicycles at part.now }
{
    let Ok(worked) = sun::work_year((two_at(part, 1) as i64) - 2_000) else {
        unreachable!()
    };
    let year = worked.year;
    if byte_at(part, 3) != year.day_name || byte_at(part, 4) != year.mansion {
        return Some(at);
    }
    for (k, term) in worked.terms.iter().enumerate() {
        let start = 5 + k * 6;
        if term_differs(&part[start..], *term) {
            return Some(at + start);
        }
    }
    None
}

pub fn verify_book(book: &[u8]) -> Result<Verdict, Fault>
    ensures { said_verdict result ≡ verdict_of epicycles book.now }
{
    book::check_book(book)?;
    for (i, part) in book.chunks_exact(149).enumerate() {
        if let Some(byte) = year_verdict(part, i * 149) {
            return Ok(Verdict::NotOurs(byte));
        }
    }
    Ok(Verdict::Ours)
}
