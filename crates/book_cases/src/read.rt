// The year at the start of a book, by value.
use std::io;
use std::io::Write;
use sun::TermRecord;
use values::Head;

// The answer, the head, and the first term, one in between and the last: all 0 on a refusal.
pub(crate) fn read_year(out: &mut impl Write, bytes: &[u8]) -> io::Result<()> {
    match values::read_values(bytes) {
        Ok(read) => {
            let Head {
                n,
                day_name,
                mansion,
            } = read.head;
            write!(out, "read {n} {day_name} {mansion}")?;
            for k in [0, 11, 23] {
                let TermRecord { day, minute, count } = read.terms[k];
                write!(out, " {day}:{minute}:{count}")?;
            }
            Ok(())
        }
        Err(fault) => write!(out, "{fault} 0 0 0 0:0:0 0:0:0 0:0:0"),
    }
}
