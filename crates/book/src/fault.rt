// A book's refusal, and the byte where the record at fault starts.
ghost use Rattle.std.specs.Prelude.{Some};
ghost use Rattle.book.specs.Shown.{fault_text};

use std::error::Error;
use std::fmt;
use units::Refusal;

#[derive(Clone, Copy, Debug, PartialEq, Eq)]
pub struct Fault {
    pub refusal: Refusal,
    pub byte: usize,
}

impl fmt::Display for Fault {
    ghost output = { λ fault. Some (fault_text fault) };

    fn fmt<W: fmt::Write>(&self, f: &mut fmt::Formatter<W>) -> fmt::Result {
        write!(f, "{} at {}", self.refusal, self.byte)
    }
}

impl Error for Fault {}
