// The term book.
ghost use Rattle.std.specs.Prelude.{◌≡◌};
ghost use Rattle.law.specs.Document.{epicycles};
ghost use Rattle.law.specs.Book.{write_answer, worked_answer, book_of, seek_of};
ghost use Rattle.corrections.specs.Corrections.{corrected_of};
ghost use Rattle.verify.specs.Verify.{verdict_of};
ghost use Rattle.bhromilun.specs.Told.{Told, lent};
ghost use Rattle.bhromilun.specs.Books.{ToldCheck, ToldSought, ToldCorrected, ToldVerdict, ToldRead, year_given};

use crate::answer::{tell, tell_fault};
use crate::columns::{days_of, minutes_of, terms_from};
use book::NoYear;
use corrections::corrected_year;
use values::Head;
use verify::Verdict;

// Fills the first 149 bytes of a buffer with a year; the later ones stay.
#[unsafe(no_mangle)]
pub extern "C" fn bhromilun_write_year(n: i64, buffer: &mut [u8]) -> u64
    ensures { Told (worked_answer epicycles n buffer.old) result (lent buffer) }
{
    tell(values::write_year(n, buffer), &mut |()| {})
}

// Checks a book. The byte is the book's length where it is sound; else that of the record at fault.
#[unsafe(no_mangle)]
pub extern "C" fn bhromilun_check_book(bytes: &[u8], byte: &mut usize) -> u64
    ensures { ToldCheck (book_of bytes.now) result (lent byte) }
{
    match book::check_book(bytes) {
        Ok(end) => {
            *byte = end;
            0
        }
        Err(fault) => tell_fault(fault, byte),
    }
}

// Seeks a year. Where it is found its part starts and ends at these bytes; a book at fault is so at `byte`.
#[unsafe(no_mangle)]
pub extern "C" fn bhromilun_seek_year(
    bytes: &[u8],
    n: i64,
    start: &mut usize,
    end: &mut usize,
    byte: &mut usize,
) -> u64
    ensures { ToldSought (seek_of bytes.now n) result (lent start) (lent end) (lent byte) }
{
    match book::seek_year(bytes, n) {
        Ok(part) => {
            *start = part.start;
            *end = part.end;
            0
        }
        Err(NoYear::Unsound(fault)) => tell_fault(fault, byte),
        Err(NoYear::Refused(refusal)) => u64::from(refusal),
    }
}

// Seeks a year in the corrections, then in the main book, both checked whole. Where it is found its part of that book starts and ends at
// these bytes; a book at fault is so at `byte`. `which` is 0 for the corrections and 1 for the main book.
#[unsafe(no_mangle)]
pub extern "C" fn bhromilun_corrected_year<'a>(
    corrections: &'a [u8],
    main: &'a [u8],
    n: i64,
    which: &mut u64,
    start: &mut usize,
    end: &mut usize,
    byte: &mut usize,
) -> u64
    ensures { ToldCorrected (corrected_of corrections.now main.now n) result (lent which) (lent start) (lent end) (lent byte) }
{
    match corrected_year(corrections, main, n) {
        Ok(year) => {
            *which = year.which as u64;
            *start = year.start;
            *end = year.end;
            0
        }
        Err(corrections::NoYear::Unsound(book, fault)) => {
            *which = book as u64;
            tell_fault(fault, byte)
        }
        Err(corrections::NoYear::Refused(refusal)) => u64::from(refusal),
    }
}

// Says whether a book is ours. Where it isn't, its first record that isn't starts at `byte`; a book at fault is so at `byte`.
#[unsafe(no_mangle)]
pub extern "C" fn bhromilun_verify_book(bytes: &[u8], byte: &mut usize) -> u64
    ensures { ToldVerdict (verdict_of epicycles bytes.now) result (lent byte) }
{
    match verify::verify_book(bytes) {
        Ok(Verdict::Ours) => 0,
        Ok(Verdict::NotOurs(at)) => {
            *byte = at;
            100
        }
        Err(fault) => tell_fault(fault, byte),
    }
}

// Reads the year at the start of the bytes; what follows it is not looked at. A sound year is stored, and the byte after it in `end`;
// a year at fault is so at `byte`.
#[unsafe(no_mangle)]
pub extern "C" fn bhromilun_read_year(
    bytes: &[u8],
    n: &mut i64,
    day_name: &mut u64,
    mansion: &mut u64,
    days: &mut [i64; 24],
    minutes: &mut [u64; 24],
    end: &mut usize,
    byte: &mut usize,
) -> u64
    ensures { ToldRead bytes.now result (lent n) (lent day_name) (lent mansion) (lent days) (lent minutes) (lent end) (lent byte) }
{
    match values::read_values(bytes) {
        Ok(year) => {
            *n = year.head.n;
            *day_name = year.head.day_name;
            *mansion = year.head.mansion;
            *days = days_of(&year.terms);
            *minutes = minutes_of(&year.terms);
            *end = year.end;
            0
        }
        Err(fault) => tell_fault(fault, byte),
    }
}

// Fills the first 149 bytes of a buffer with the year of these values; the later ones stay.
#[unsafe(no_mangle)]
pub extern "C" fn bhromilun_write_year_from(
    n: i64,
    day_name: u64,
    mansion: u64,
    days: &[i64; 24],
    minutes: &[u64; 24],
    buffer: &mut [u8],
) -> u64
    ensures { Told (write_answer (year_given n day_name mansion days.now minutes.now) buffer.old) result (lent buffer) }
{
    let head = Head {
        n,
        day_name,
        mansion,
    };
    let terms = terms_from(days, minutes);
    tell(values::write_values(head, terms, buffer), &mut |()| {})
}
