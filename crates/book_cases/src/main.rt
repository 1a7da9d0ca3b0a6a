// The term book, run and compared: years written and their refusals, then damaged books. Standard input has
// changes of a base book, one after the other: the new length, the number of bytes changed, and each place
// and byte. tests/expected.py makes stdin and stdout.
#![tactic(auto)]

ghost use Rattle.std.specs.Prelude.{◌≤◌, length};

mod bytes;
mod corrected;
mod damaged;
mod read;
mod readers;
mod written;

use std::io;
use std::io::{Read, Write};

// Fills the buffer from its start, as far as the input goes or a read does not fail: how many bytes were read.
fn read_full(input: &mut impl Read, buffer: &mut [u8]) -> usize
    ensures { result ≤ length buffer.new }
{
    let mut done = 0;
    while let Ok(n @ 1..) = input.read(&mut buffer[done..]) {
        done += n;
    }
    done
}

fn lines(input: &mut impl Read, out: &mut impl Write) -> io::Result<()> {
    written::lines(out)?;
    let mut bytes = [0u8; 262_144];
    let n = read_full(input, &mut bytes);
    damaged::lines(out, &bytes[..n])
}

// What cannot be written is missing from the output, and so is what was to follow.
fn main(rt: HostRuntime) {
    let _ = lines(&mut rt.stdin(), &mut rt.stdout());
}
