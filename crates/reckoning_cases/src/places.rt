// Mean, true and run-on places over years and days, with their limits.
use crate::answers::Answer;
use std::io;
use std::io::Write;

fn line(out: &mut impl Write, n: i64, d: i64) -> io::Result<()> {
    let mean_place = Answer(sun::mean_place(n, d));
    let true_place = Answer(sun::true_place(n, d));
    let run_on_place = Answer(sun::run_on_place(n, d));
    writeln!(
        out,
        "place {n} {d}: mean {mean_place} true {true_place} run-on {run_on_place}"
    )
}

fn year(out: &mut impl Write, n: i64) -> io::Result<()> {
    for d in [i64::MIN, -5, -4, -3, -1, 0, 1] {
        line(out, n, d)?;
    }
    for d in (7..360u16).step_by(11) {
        line(out, n, i64::from(d))?;
    }
    for d in [369, 370, 371, i64::MAX] {
        line(out, n, d)?;
    }
    Ok(())
}

pub(crate) fn lines(out: &mut impl Write) -> io::Result<()> {
    for n in [
        -2_001, -2_000, -1_999, -1_000, -676, -1, 0, 1, 321, 1_000, 1_999, 2_000, 2_001,
    ] {
        year(out, n)?;
    }
    line(out, i64::MIN, 0)?;
    line(out, i64::MAX, 0)?;
    line(out, i64::MAX, 371)
}
