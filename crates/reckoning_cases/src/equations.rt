// Equations of centre: source 004's three figures, the joints of the circle, the ends of the type,
// every table entry's arc, and a spread.
use crate::answers::Answer;
use std::io;
use std::io::Write;

const DEGREE: i64 = 216_000_000_000;

const QUARTER: i64 = 90 * DEGREE;

// From a table entry to the next.
const STEP: i64 = 36_000_000_000;

// 1,000,000 units to a third.
const THIRD: u64 = 1_000_000;

fn line(out: &mut impl Write, anomaly: i64) -> io::Result<()> {
    let equation = Answer(sun::equation_at(anomaly));
    writeln!(out, "equation {anomaly}: {equation}")
}

// Source 004's equation at so many degrees, in thirds.
fn beside_004(out: &mut impl Write, degrees: u8, printed: u32) -> io::Result<()> {
    write!(out, "004 at {degrees}: ")?;
    match sun::equation_at(i64::from(degrees) * DEGREE) {
        Ok(ours) => {
            let apart = ours.unsigned_abs().abs_diff(u64::from(printed) * THIRD);
            writeln!(
                out,
                "{ours} units printed {printed} thirds apart {apart} units"
            )
        }
        Err(refusal) => write!(out, "{refusal}"),
    }
}

// At and beside each joint of the circle.
fn joints(out: &mut impl Write) -> io::Result<()> {
    for quarters in -5..=5i8 {
        for beside in [-1, 0, 1] {
            line(out, i64::from(quarters) * QUARTER + beside)?;
        }
    }
    Ok(())
}

pub(crate) fn lines(out: &mut impl Write) -> io::Result<()> {
    beside_004(out, 30, 225_258)?;
    beside_004(out, 90, 443_380)?;
    beside_004(out, 140, 281_213)?;
    joints(out)?;
    for anomaly in [i64::MIN, i64::MIN + 1, i64::MAX - 1, i64::MAX] {
        line(out, anomaly)?;
    }
    for k in 0..541u16 {
        line(out, i64::from(k) * STEP)?;
    }
    for i in 0..2_000u16 {
        line(out, i64::from(i) * 77_777_777_777 - 40_000_000_000_000)?;
    }
    Ok(())
}
