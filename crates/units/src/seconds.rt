// Seconds of arc and seconds of clock, counted apart: the fields are private, so only the
// conversion named here goes from one to the other.
ghost use Rattle.std.specs.Prelude.{◌≡◌};
ghost use Rattle.law.specs.Document.{clock_of_arc};

use crate::arithmetic::{half_up, size};

#[derive(Clone, Copy)]
pub struct ArcSeconds(i64);

#[derive(Clone, Copy)]
pub struct ClockSeconds(i64);

impl ArcSeconds {
    pub fn of(seconds: i64) -> ArcSeconds
        ensures { result.0 ≡ seconds }
    {
        ArcSeconds(seconds)
    }

    pub fn seconds(self) -> i64
        ensures { result ≡ self.0 }
    {
        self.0 // of arc
    }

    // Fifteen make one clock second, half or more up on the size.
    pub fn to_clock(self) -> ClockSeconds
        ensures { result.0 ≡ clock_of_arc self.0 }
    {
        let arc = self.0;
        let clock = half_up(size(arc), 15) as i64;
        if arc < 0 {
            return ClockSeconds(-clock);
        }
        ClockSeconds(clock)
    }
}

impl ClockSeconds {
    pub fn seconds(self) -> i64
        ensures { result ≡ self.0 }
    {
        self.0 // of clock
    }
}
