// Years worked out and written, years written from values, and their refusals, with the whole buffer afterwards.
ghost use Rattle.std.specs.Prelude.{◌≤◌};

use std::io::Write;
use std::{fmt, io};
use sun::TermRecord;
use units::Refusal;
use values::Head;

// Each byte in two digits of base 16.
#[derive(Clone, Copy)]
struct Hex<'a>(&'a [u8]);

impl<'a> fmt::Display for Hex<'a> {
    fn fmt<W: fmt::Write>(&self, f: &mut fmt::Formatter<W>) -> fmt::Result {
        for byte in self.0 {
            write!(f, "{byte:02x}")?;
        }
        Ok(())
    }
}

// What a writer answered, and the buffer that it was lent a part of.
fn answer(out: &mut impl Write, written: Result<(), Refusal>, buffer: &[u8]) -> io::Result<()> {
    let buffer = Hex(buffer);
    match written {
        Ok(()) => writeln!(out, "done {buffer}"),
        Err(refusal) => writeln!(out, "{refusal} {buffer}"),
    }
}

// The year n into the first `room` bytes of a buffer of 152, all of them 238 before.
fn year(out: &mut impl Write, n: i64, room: usize) -> io::Result<()>
    requires { room ≤ 152 }
{
    write!(out, "year {n} in {room}: ")?;
    let mut buffer = [238u8; 152];
    let written = values::write_year(n, &mut buffer[..room]);
    answer(out, written, &buffer)
}

// A year of equal terms, into the first `room` bytes of such a buffer.
fn values(out: &mut impl Write, head: Head, term: TermRecord, room: usize) -> io::Result<()>
    requires { room ≤ 152 }
{
    let Head {
        n,
        day_name,
        mansion,
    } = head;
    let TermRecord { day, minute, .. } = term;
    write!(
        out,
        "values {n} {day_name} {mansion} {day} {minute} in {room}: "
    )?;
    let mut buffer = [238u8; 152];
    let written = values::write_values(head, [term; 24], &mut buffer[..room]);
    answer(out, written, &buffer)
}

fn years(out: &mut impl Write) -> io::Result<()> {
    for (n, room) in [(-2_001, 152), (-2_000, 149), (-676, 150), (-1, 152)] {
        year(out, n, room)?;
    }
    for room in [149, 148, 0] {
        year(out, 0, room)?;
    }
    for (n, room) in [(1, 152), (2_000, 152), (2_001, 148)] {
        year(out, n, room)?;
    }
    Ok(())
}

pub(crate) fn lines(out: &mut impl Write) -> io::Result<()> {
    years(out)?;
    for (n, day_name, mansion, day, minute, room) in [
        (-2_000, 0, 0, -4, 0, 149),
        (2_000, 59, 27, 370, 1_439, 152),
        (2_001, 60, 28, 371, 1_440, 148),
        (2_000, 60, 28, 371, 1_440, 148),
        (2_000, 60, 27, 370, 1_439, 149),
        (2_000, 59, 28, 370, 1_439, 149),
        (2_000, 59, 27, 371, 1_439, 149),
        (2_000, 59, 27, -5, 1_439, 149),
        (2_000, 59, 27, 370, 1_440, 149),
    ] {
        let head = Head {
            n,
            day_name,
            mansion,
        };
        let term = TermRecord {
            day,
            minute,
            count: 9,
        };
        values(out, head, term, room)?;
    }
    Ok(())
}
