// Of each damaged book: what checking it, seeking the year 0 in it, reading its first year and a reader's calls answer, what is
// handed out where its years are corrections and a main book, and whether it is ours.
use crate::bytes::{byte_at, from, two_at};
use crate::read::read_year;
use crate::{corrected, readers};
use book::Part;
use std::io;
use std::io::Write;
use verify::Verdict;

// The years -676, 0 and 321, and zeros after them. There is room, and none of the three is refused.
fn base_book() -> [u8; 600] {
    let mut book = [0u8; 600];
    for (n, year) in [-676, 0, 321].into_iter().zip(book.chunks_exact_mut(149)) {
        let _ = values::write_year(n, year);
    }
    book
}

fn checked(out: &mut impl Write, bytes: &[u8]) -> io::Result<()> {
    match book::check_book(bytes) {
        Ok(_) => write!(out, "sound"),
        Err(fault) => write!(out, "{fault}"),
    }
}

fn sought(out: &mut impl Write, bytes: &[u8]) -> io::Result<()> {
    match book::seek_year(bytes, 0) {
        Ok(Part { start, end }) => write!(out, "{start} to {end}"),
        Err(why) => write!(out, "{why}"),
    }
}

fn verified(out: &mut impl Write, bytes: &[u8]) -> io::Result<()> {
    match verify::verify_book(bytes) {
        Ok(Verdict::Ours) => write!(out, "ours"),
        Ok(Verdict::NotOurs(byte)) => write!(out, "not ours at {byte}"),
        Err(fault) => write!(out, "{fault}"),
    }
}

fn line(out: &mut impl Write, bytes: &[u8]) -> io::Result<()> {
    checked(out, bytes)?;
    write!(out, " | ")?;
    sought(out, bytes)?;
    write!(out, " | ")?;
    read_year(out, bytes)?;
    write!(out, " | ")?;
    readers::calls(out, bytes)?;
    write!(out, " | ")?;
    corrected::years(out, bytes)?;
    write!(out, " | ")?;
    verified(out, bytes)?;
    writeln!(out)
}

// A change is a place, in two bytes, and the byte. A place beyond the book changes nothing.
fn change(book: &mut [u8], change: &[u8]) {
    if let Some(byte) = book.get_mut(usize::from(two_at(change, 0))) {
        *byte = byte_at(change, 2);
    }
}

// One damaged book. Answers the input after it.
fn case<'a>(out: &mut impl Write, input: &'a [u8], base: [u8; 600]) -> io::Result<&'a [u8]> {
    let len = usize::from(two_at(input, 0));
    let changes = two_at(input, 2);
    let mut book = base;
    let mut rest = from(input, 4);
    for _change in 0..changes {
        change(&mut book, rest);
        rest = from(rest, 3);
    }
    if let Some(book) = book.get(..len) {
        line(out, book)?;
    }
    Ok(rest)
}

// The first 10,000 cases, if there are so many.
pub(crate) fn lines(out: &mut impl Write, input: &[u8]) -> io::Result<()> {
    let base = base_book();
    let mut rest = input;
    for _case in 0..10_000 {
        if rest.is_empty() {
            break;
        }
        rest = case(out, rest, base)?;
    }
    Ok(())
}
