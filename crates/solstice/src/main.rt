// Answers each line of standard input, in order: a year's mean solstice and mansion, or a refusal. It
// keeps the line so far as a small state, so memory does not grow; a write is made for a block read, not for a line.
// A failed read or write is told on standard error, and ends the program.
#![tactic(auto)]

ghost use Rattle.std.specs.Prelude.{IfSome, OnOk};
ghost use Rattle.std.specs.Io.KnownBytes.{Appends};
ghost use Rattle.law.specs.Request.{output};

use request::Line;
use std::io::{Read, Write};

#[derive(Clone, Copy)]
enum Failed {
    Read,
    Write,
    Unended,
}

fn put<W: Write>(out: &mut W, answers: &[u8]) -> Result<(), Failed>
    ensures { OnOk result (Appends (W.contents out.old) (W.contents out.new) answers.now) }
{
    out.write_all(answers).map_err(|_| Failed::Write)
}

// Each turn is one read, and the answers to the lines that end in it. A line that a failed read leaves unfinished is not answered.
// A proved loop has to end, and nothing says that an input does: so the turns are counted, up to a number that no run reaches.
fn answer_all<R: Read, W: Write>(input: &mut R, out: &mut W) -> Result<(), Failed>
    ensures { OnOk result (IfSome (R.remaining input.old)
        (λ bytes. Appends (W.contents out.old) (W.contents out.new) (output bytes))) }
{
    // made once, not at each read; and `feed` asks for 32 bytes of answers for each byte of block
    let mut block = [0u8; 2048];
    let mut answers = [0u8; 65536];
    let mut line = Line::Empty;
    for _ in 0..u64::MAX {
        let n = input.read(&mut block).map_err(|_| Failed::Read)?;
        if n == 0 {
            // the answer to a last line without its newline
            let written = request::finish(line, &mut answers);
            return put(out, &answers[..written]);
        }
        let fed = request::feed(line, &block[..n], &mut answers);
        put(out, &answers[..fed.written])?;
        line = fed.line;
    }
    Err(Failed::Unended)
}

fn main(rt: HostRuntime) {
    match answer_all(&mut rt.stdin(), &mut rt.stdout()) {
        Ok(()) | Err(Failed::Unended) => {}
        Err(Failed::Read) => console::tell(&mut rt.stderr(), b"the input could not be read\n"),
        Err(Failed::Write) => console::tell(
            &mut rt.stderr(),
            b"the answers could not be written\n",
        ),
    }
}
