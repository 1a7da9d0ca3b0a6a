// Text, numbers and refusals, each written after what a writer holds; and on standard error what went wrong.
ghost use Rattle.std.specs.Prelude.{◌<◌, ◌≤◌, ◌++◌, OnOk, codes, decimal};
ghost use Rattle.std.specs.Fmt.{signed_decimal};
ghost use Rattle.std.specs.Io.KnownBytes.{Appends};
ghost use Rattle.law.specs.Request.{refused_text};
ghost use Rattle.units.specs.Said.{number_of};

use std::io;
use std::io::Write;
use units::Refusal;

pub fn text<W: Write>(out: &mut W, bytes: &[u8]) -> io::Result<()>
    ensures { OnOk result (Appends (W.contents out.old) (W.contents out.new) bytes.now) }
{
    out.write_all(bytes)
}

pub fn number<W: Write>(out: &mut W, n: u64) -> io::Result<()>
    ensures { OnOk result (Appends (W.contents out.old) (W.contents out.new) (decimal n)) }
{
    write!(out, "{n}")
}

pub fn two_digits<W: Write>(out: &mut W, n: u64) -> io::Result<()>
    ensures one { n < 10 → OnOk result (Appends (W.contents out.old) (W.contents out.new) (codes "0" ++ decimal n)) }
    ensures more { 10 ≤ n → OnOk result (Appends (W.contents out.old) (W.contents out.new) (decimal n)) }
{
    write!(out, "{n:02}")
}

pub fn signed<W: Write>(out: &mut W, z: i64) -> io::Result<()>
    ensures { OnOk result (Appends (W.contents out.old) (W.contents out.new) (signed_decimal z)) }
{
    write!(out, "{z}")
}

// Within a line.
pub fn refused<W: Write>(out: &mut W, refusal: Refusal) -> io::Result<()>
    ensures { OnOk result (Appends (W.contents out.old) (W.contents out.new) (codes "refused " ++ decimal (number_of refusal))) }
{
    write!(out, "{refusal}")
}

// A line of its own.
pub fn refusal_line<W: Write>(out: &mut W, refusal: Refusal) -> io::Result<()>
    ensures { OnOk result (Appends (W.contents out.old) (W.contents out.new) (refused_text (number_of refusal))) }
{
    writeln!(out, "{refusal}")
}

// On standard error. What that does not take, nobody can be told.
pub fn tell<W: Write>(to: &mut W, words: &[u8]) {
    let _ = to.write_all(words);
}
