// A request line, read a byte at a time: the line so far is a small state, whatever its length.
ghost use Rattle.std.specs.Prelude.{◌≡◌, ◌≤◌};
ghost use Rattle.law.specs.Request.{line_asks, signed_by};
ghost use Rattle.units.specs.Said.{said_signed};
ghost use Rattle.request.specs.Reading.{digit_step, line_step, line_end, line_after};

use units::Refusal;

// A line so far: no byte; a minus or none, how many digits, and their number; or no year.
#[derive(Clone, Copy, Debug, PartialEq, Eq)]
pub enum Line {
    Empty,
    Digits { minus: bool, count: u64, size: u64 },
    NoYear,
}

fn digit_step(minus: bool, count: u64, size: u64, b: u8) -> Line
    ensures { result ≡ digit_step minus count size b }
{
    if b.is_ascii_digit() && count < 4 && size < 1_000 {
        return Line::Digits {
            minus,
            count: count + 1,
            size: size * 10 + u64::from(b - b'0'),
        };
    }
    Line::NoYear
}

// The line with one byte more, which is no newline.
pub fn line_step(line: Line, b: u8) -> Line
    ensures { result ≡ line_step line b }
{
    match line {
        Line::Empty if b == b'-' => Line::Digits {
            minus: true,
            count: 0,
            size: 0,
        },
        Line::Empty => digit_step(false, 0, 0, b),
        Line::Digits { minus, count, size } => digit_step(minus, count, size, b),
        Line::NoYear => Line::NoYear,
    }
}

// The line with some bytes more, none of which is a newline.
pub(crate) fn line_after(line: Line, bytes: &[u8]) -> Line
    ensures { result ≡ line_after line bytes.now }
{
    bytes.iter().fold(line, |line, b| line_step(line, *b))
}

fn signed(minus: bool, size: u64) -> i64
    requires { size ≤ 2_000 }
    ensures { result ≡ signed_by minus size }
{
    let n = size as i64;
    if minus { -n } else { n }
}

// What the line asks, once it has ended: N, or refusal 11, then 1.
pub fn line_end(line: Line) -> Result<i64, Refusal>
    ensures { said_signed result ≡ line_end line }
{
    match line {
        Line::Empty | Line::NoYear | Line::Digits { count: 0, .. } => Err(Refusal::NotAYear),
        Line::Digits { size, .. } if 2_000 < size => Err(Refusal::YearOutside),
        Line::Digits { minus, size, .. } => Ok(signed(minus, size)),
    }
}

// What a whole line asks, given without its newline.
#[tactic(auto, using(crate::proofs::ReadLine::read_line))]
pub fn asked_by(bytes: &[u8]) -> Result<i64, Refusal>
    ensures { said_signed result ≡ line_asks bytes.now }
{
    line_end(line_after(Line::Empty, bytes))
}
