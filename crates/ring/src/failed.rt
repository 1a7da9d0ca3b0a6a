// Why there is no picture.
use std::fmt;
use units::Refusal;

#[derive(Clone, Copy)]
pub(crate) enum Failed {
    Read,
    Refused(Refusal),
    Draw,
    Write,
}

impl From<Refusal> for Failed {
    fn from(refusal: Refusal) -> Failed {
        Failed::Refused(refusal)
    }
}

// The page had no room, or a value was out of its kind.
impl From<fmt::Error> for Failed {
    fn from(_: fmt::Error) -> Failed {
        Failed::Draw
    }
}
