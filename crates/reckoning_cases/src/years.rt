// Mean solstices, mansions and roots; and source 003's three solstices.
use crate::answers::Answer;
use console::{number, refused, signed, text, two_digits};
use std::io::Write;
use std::{fmt, io};
use sun::Year;

#[derive(Clone, Copy)]
struct Values(Year);

impl fmt::Display for Values {
    fn fmt<W: fmt::Write>(&self, f: &mut fmt::Formatter<W>) -> fmt::Result {
        let Year {
            day_name,
            fraction,
            mansion,
            root,
        } = self.0;
        write!(
            f,
            "day name {day_name} fraction {fraction} mansion {mansion} root {root}"
        )
    }
}

fn line(out: &mut impl Write, n: i64) -> io::Result<()> {
    writeln!(out, "year {n}: {}", Answer(sun::year_of(n).map(Values)))
}

// The day name; and hour, minute and second of the fraction of a day, cut off.
fn clock(out: &mut impl Write, year: &Year) -> io::Result<()> {
    let seconds = year.fraction % 1_000_000_000 * 86_400 / 1_000_000_000;
    number(out, year.day_name)?;
    write!(out, " {}:", seconds / 3_600)?;
    two_digits(out, seconds / 60 % 60)?;
    text(out, b":")?;
    two_digits(out, seconds % 60)
}

fn beside_003(out: &mut impl Write, n: i64, printed: &str) -> io::Result<()> {
    text(out, b"003 ")?;
    signed(out, n)?;
    text(out, b": days ")?;
    match sun::year_of(n) {
        Ok(year) => clock(out, &year)?,
        Err(refusal) => refused(out, refusal)?,
    }
    writeln!(out, " printed {printed}")
}

pub(crate) fn lines(out: &mut impl Write) -> io::Result<()> {
    for n in [i64::MIN, -2_002, -2_001] {
        line(out, n)?;
    }
    for twenties in -100..=100i8 {
        line(out, i64::from(twenties) * 20)?;
    }
    for n in [2_001, 2_002, i64::MAX] {
        line(out, n)?;
    }
    for n in [-1_999, -676, -633, -600, -585, -2, -1, 1, 2, 1_999] {
        line(out, n)?;
    }
    beside_003(out, -600, "42 8:15:01")?;
    beside_003(out, -633, "49 8:26:16")?;
    beside_003(out, -585, "0 23:26:16")
}
