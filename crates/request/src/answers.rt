// An input of lines, answered block by block into a lent buffer: the same answers however the input is cut.
ghost use Rattle.std.specs.Prelude.{◌≡◌, ◌+◌, ◌*◌, ◌≤◌, ◌<◌, length};
ghost use Rattle.request.specs.Stream.{fitting_block, closing, closing_in, Took, Feeds, Ends};

use crate::line::{Line, line_end, line_step};
use crate::text::{ROOM, Text, answer_text};

// The line that has not ended yet, how many bytes of the buffer are written, and how many of the block are taken.
#[derive(Clone, Copy, Debug, PartialEq, Eq)]
pub struct Fed {
    pub line: Line,
    pub written: usize,
    pub taken: usize,
}

impl Fed {
    // Takes one byte of input more.
    fn step(self, b: u8, out: &mut [u8]) -> Fed
        requires { (self.written ≤ 32 * self.taken) × (32 * (self.taken + 1) ≤ length out.old) }
        ensures { Took self b out.old out.new result }
    {
        let (line, written) = if b == b'\n' {
            let answer = answer_text(line_end(self.line));
            (Line::Empty, answer.put(out, self.written))
        } else {
            (line_step(self.line, b), self.written)
        };
        Fed {
            line,
            written,
            taken: self.taken + 1,
        }
    }
}

// A block that the buffer has room for.
#[tactic(auto, using(crate::proofs::answers::Feeding::all_fed))]
fn feed_block(line: Line, block: &[u8], out: &mut [u8]) -> Fed
    requires { 32 * length block.now ≤ length out.old }
    ensures { Feeds line block.now out.old out.new result }
{
    let mut fed = Fed {
        line,
        written: 0,
        taken: 0,
    };
    for b in block {
        fed = fed.step(*b, out);
    }
    fed
}

// Takes a block of input, of which as many bytes as the buffer has room for, 32 for each; writes the answers to the lines that end in them.
pub fn feed(line: Line, block: &[u8], out: &mut [u8]) -> Fed
    ensures { Feeds line (fitting_block block.now out.old) out.old out.new result }
{
    let fitting = block.len().min(out.len() / ROOM);
    feed_block(line, &block[..fitting], out)
}

// The answer at the input's end: to a last line without its newline, if it has bytes.
fn last_text(line: Line) -> Text
    ensures { result ≡ closing line }
{
    match line {
        Line::Empty => Text::new(),
        begun => answer_text(line_end(begun)),
    }
}

// Writes that answer where the buffer has room for it, 32 bytes; how many bytes are written.
pub fn finish(line: Line, out: &mut [u8]) -> usize
    ensures { Ends (closing_in line out.old) out.old out.new result }
{
    if out.len() < ROOM {
        return 0;
    }
    last_text(line).put(out, 0)
}
