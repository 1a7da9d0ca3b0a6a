// A reader opened on a book, and what it hands out at each of five calls: three years and the end, and then what stays.
use book::two_at;
use std::io;
use std::io::Write;

// The length of a year's part and its N + 2,000; else no bytes are handed out.
pub(crate) fn calls(out: &mut impl Write, bytes: &[u8]) -> io::Result<()> {
    let mut reader = book::open(bytes);
    for _call in 0..5 {
        match book::next(&mut reader) {
            Ok(Some(year)) => write!(out, " {}:{}", year.part.len(), two_at(year.part, 1))?,
            Ok(None) => write!(out, " 0:end")?,
            Err(fault) => write!(out, " 0:{fault}")?,
        }
    }
    Ok(())
}
