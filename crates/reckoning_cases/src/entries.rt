// Every entry of the two tables.
use std::io;
use std::io::Write;

pub(crate) fn lines(out: &mut impl Write) -> io::Result<()> {
    for k in 0..541 {
        writeln!(out, "sine {k} {}", tables::sine_entry(k))?;
    }
    for m in 0..131 {
        writeln!(out, "tangent {m} {}", tables::tangent_entry(m))?;
    }
    Ok(())
}
