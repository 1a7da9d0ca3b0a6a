// Answers as the lines have them.
use local::Moment;
use std::fmt;
use sun::Crossing;
use units::Refusal;

// What a call answers, or its refusal.
#[derive(Drop)]
pub(crate) struct Answer<T>(pub(crate) Result<T, Refusal>);

impl<T: fmt::Display> fmt::Display for Answer<T> {
    fn fmt<W: fmt::Write>(&self, f: &mut fmt::Formatter<W>) -> fmt::Result {
        match &self.0 {
            Ok(answer) => write!(f, "{answer}"),
            Err(refusal) => write!(f, "{refusal}"),
        }
    }
}

// A minute of a day.
#[derive(Clone, Copy)]
pub(crate) struct Minute {
    pub(crate) day: i64,
    pub(crate) minute: u64,
}

impl From<Moment> for Minute {
    fn from(there: Moment) -> Minute {
        Minute {
            day: there.day,
            minute: there.minute,
        }
    }
}

impl From<Crossing> for Minute {
    fn from(found: Crossing) -> Minute {
        Minute {
            day: found.day,
            minute: found.minute,
        }
    }
}

impl fmt::Display for Minute {
    fn fmt<W: fmt::Write>(&self, f: &mut fmt::Formatter<W>) -> fmt::Result {
        write!(f, "day {} minute {}", self.day, self.minute)
    }
}
