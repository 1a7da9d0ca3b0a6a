// The 24 terms of every twentieth year, one by one, as printed and as crossings; those where rounding shows; and their refusals.
use crate::answers::{Answer, Minute};
use std::io::Write;
use std::{fmt, io};
use sun::TermRecord;

#[derive(Clone, Copy)]
pub(crate) struct Term(pub(crate) TermRecord);

impl fmt::Display for Term {
    fn fmt<W: fmt::Write>(&self, f: &mut fmt::Formatter<W>) -> fmt::Result {
        let TermRecord { day, minute, count } = self.0;
        write!(f, "{} count {count}", Minute { day, minute })
    }
}

fn line(out: &mut impl Write, n: i64, k: u64) -> io::Result<()> {
    let term = Answer(sun::term_of(n, k).map(Term));
    let crossing = Answer(sun::crossing_of(n, k).map(Minute::from));
    writeln!(out, "term {n} {k}: {term}")?;
    writeln!(out, "crossing {n} {k}: {crossing}")
}

fn every_twentieth_year(out: &mut impl Write) -> io::Result<()> {
    for twenties in -100..=100i8 {
        for k in 0..24 {
            line(out, i64::from(twenties) * 20, k)?;
        }
    }
    Ok(())
}

pub(crate) fn lines(out: &mut impl Write) -> io::Result<()> {
    every_twentieth_year(out)?;
    // Carried to the next day, and next to half a minute.
    for (n, k) in [(-255, 0), (-1_556, 22), (-104, 5), (527, 23)] {
        line(out, n, k)?;
    }
    for (n, k) in [(-2_001, 0), (2_001, 23), (-2_001, 24), (2_001, 24)] {
        line(out, n, k)?;
    }
    for (n, k) in [(0, 24), (0, u64::MAX), (-2_000, 24), (2_000, 24)] {
        line(out, n, k)?;
    }
    line(out, i64::MIN, 0)?;
    line(out, i64::MAX, 24)
}
