// What the first line of an input asks. It is read a byte at a time, so no byte after the line is taken from the input.
ghost use Rattle.std.specs.Prelude.{◌≡◌, IfOk, IfSome};
ghost use Rattle.law.specs.Request.{first_asks};
ghost use Rattle.units.specs.Said.{said_signed};
ghost use Rattle.console.specs.FirstLine.{TakesOfLine};

use request::{First, Line};
use std::io;
use std::io::Read;
use units::Refusal;

// Six reads are enough: each makes an open line a byte longer, and a sixth byte settles it. The end of the input ends the line.
pub fn first_line<R: Read>(input: &mut R) -> io::Result<Result<i64, Refusal>>
    ensures asked { IfOk result
        (λ asked. IfSome (R.remaining input.old) (λ bytes. said_signed asked ≡ first_asks bytes)) }
    ensures taken { TakesOfLine (R.remaining input.old) (R.remaining input.new) result }
{
    let mut block = [0u8; 1];
    let mut line = Line::Empty;
    for _read in 0..6u8 {
        let n = input.read(&mut block)?;
        if n == 0 {
            return Ok(request::line_end(line));
        }
        match request::first_line(line, &block[..n]) {
            First::Asked(asked) => return Ok(asked),
            First::Open(longer) => line = longer,
        }
    }
    unreachable!()
}
