// The first line of an input, taken block by block: what it asks, as soon as no byte that may follow can change that.
ghost use Rattle.std.specs.Prelude.{◌≡◌, ◌==◌, position};
ghost use Rattle.law.specs.Request.{newline};
ghost use Rattle.request.specs.First.{said_first, first_after};

use crate::line::{Line, line_after, line_end};
use units::Refusal;

// What the line asks; or the line so far, which the next block may go on with.
#[derive(Clone, Copy, Debug, PartialEq, Eq)]
pub enum First {
    Asked(Result<i64, Refusal>),
    Open(Line),
}

// Where the block has its first newline.
fn newline_in(block: &[u8]) -> Option<usize>
    ensures { result ≡ position (λ b. b == newline) block.now }
{
    block.iter().position(|b| *b == b'\n')
}

// Goes on with a block, up to its newline. Where the input ends, an open line asks what `line_end` says.
#[tactic(auto, using(crate::proofs::FirstLine::block_read))]
pub fn first_line(line: Line, block: &[u8]) -> First
    ensures { said_first result ≡ first_after line block.now }
{
    if let Some(end) = newline_in(block) {
        return First::Asked(line_end(line_after(line, &block[..end])));
    }
    match line_after(line, block) {
        // stays none, whatever follows
        Line::NoYear => First::Asked(Err(Refusal::NotAYear)),
        open => First::Open(open),
    }
}
