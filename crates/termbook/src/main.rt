// Writes the term book of the year that the first line of standard input asks, or a refusal. No line at all
// is refused as an empty one is. A failed read or write is told on standard error.
#![tactic(auto)]

ghost use Rattle.std.specs.Prelude.{◌≡◌, IfSome, OnOk};
ghost use Rattle.std.specs.Io.KnownBytes.{Appends};
ghost use Rattle.law.specs.Request.{first_asks};
ghost use Rattle.units.specs.Said.{said, said_signed};
ghost use Rattle.termbook.specs.Output.{book_asked, output};

use std::io;
use std::io::{Read, Write};
use units::Refusal;

#[derive(Clone, Copy)]
enum Failed {
    Read,
    Write,
}

// The book of the year that is asked.
fn year_book(asked: Result<i64, Refusal>) -> Result<[u8; 149], Refusal>
    ensures { said (λ book. book) result ≡ book_asked (said_signed asked) }
{
    let mut book = [0u8; 149];
    values::write_year(asked?, &mut book)?;
    Ok(book)
}

fn answer<W: Write>(out: &mut W, asked: Result<i64, Refusal>) -> io::Result<()>
    ensures { OnOk result (Appends (W.contents out.old) (W.contents out.new) (output (said_signed asked))) }
{
    match year_book(asked) {
        Ok(book) => console::text(out, &book),
        Err(refusal) => console::refusal_line(out, refusal),
    }
}

fn answer_first_line<R: Read, W: Write>(input: &mut R, out: &mut W) -> Result<(), Failed>
    ensures { OnOk result (IfSome (R.remaining input.old)
        (λ bytes. Appends (W.contents out.old) (W.contents out.new) (output (first_asks bytes)))) }
{
    let asked = console::first_line(input).map_err(|_| Failed::Read)?;
    answer(out, asked).map_err(|_| Failed::Write)
}

fn main(rt: HostRuntime) {
    match answer_first_line(&mut rt.stdin(), &mut rt.stdout()) {
        Ok(()) => {}
        Err(Failed::Read) => console::tell(&mut rt.stderr(), b"the line could not be read\n"),
        Err(Failed::Write) => console::tell(&mut rt.stderr(), b"the answer could not be written\n"),
    }
}
