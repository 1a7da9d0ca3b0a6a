// A damaged book in two: its later years as the sheet of corrections, the years before, or all, as the main book.
ghost use Rattle.std.specs.Prelude.{◌≤◌, length};

use book::two_at;
use corrections::{CorrectedYear, corrected_year};
use std::io;
use std::io::Write;

// The part's length, its N + 2,000 and its last minute, all 0 where there is none; which book and where, or the refusal.
fn handed_out(out: &mut impl Write, corrections: &[u8], main: &[u8], n: i64) -> io::Result<()> {
    match corrected_year(corrections, main, n) {
        Ok(year) => {
            let CorrectedYear {
                part,
                which,
                start,
                end,
            } = year;
            let len = part.len();
            let index = two_at(part, 1);
            let last_minute = two_at(part, 147);
            write!(out, "{len}:{index}:{last_minute} {which} {start} to {end}")
        }
        Err(why) => write!(out, "0:0:0 {why}"),
    }
}

// The third year, which the corrections should have; the second, which the main book should have; and the second again, which both
// should have where the second year on is the corrections and the whole is the main book.
fn in_two(out: &mut impl Write, bytes: &[u8], second: usize, third: usize) -> io::Result<()>
    requires { second ≤ length bytes.now × third ≤ length bytes.now }
{
    let (before, from_third) = bytes.split_at(third);
    handed_out(out, from_third, before, 321)?;
    write!(out, " | ")?;
    handed_out(out, from_third, before, 0)?;
    write!(out, " | ")?;
    handed_out(out, &bytes[second..], bytes, 0)
}

pub(crate) fn years(out: &mut impl Write, bytes: &[u8]) -> io::Result<()> {
    if bytes.len() < 298 {
        in_two(out, bytes, bytes.len(), bytes.len())
    } else {
        in_two(out, bytes, 149, 298)
    }
}
