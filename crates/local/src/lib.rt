// The local time of a place: the clock seconds of its longitude, added to a day and minute of the capital.
// Inside, time is in clock seconds from the midnight of day -5 on, the first day that a place can reach:
// so none is below 0. No public function has a `requires`.
#![tactic(auto)]

ghost use Rattle.std.specs.Prelude.{◌≡◌, ◌+◌, ◌*◌, ◌/◌, ◌≤◌, pos, nat_abs, ◌+ℤ◌, ◌-ℤ◌};
ghost use Rattle.law.specs.Document.{local_answer};
ghost use Rattle.local.specs.Said.{said_local};

use units::{ArcSeconds, ClockSeconds, Refusal};

#[derive(Clone, Copy)]
pub struct Moment {
    pub day: i64,
    pub minute: u64,
}

// Of clock.
const MINUTE: u64 = 60;

const DAY: u64 = 1_440 * MINUTE;

// A day and minute of the capital, the day counted from -4 on.
fn seconds_at(j: u64, minute: u64) -> u64
    requires { (j ≤ 374) × (minute ≤ 1_439) }
    ensures { (result ≡ j * 86_400 + minute * 60 + 86_400) × (result ≤ 40_000_000) }
{
    j * DAY + minute * MINUTE + DAY
}

// East is later, west earlier: by half a day at most.
fn shifted(here: u64, clock: ClockSeconds) -> u64
    requires { (86_400 ≤ here) × (here ≤ 40_000_000) × (nat_abs clock.0 ≤ 43_200) }
    ensures { (pos result ≡ pos here +ℤ clock.0) × (result ≤ 50_000_000) }
{
    here.saturating_add_signed(clock.seconds())
}

fn day_at(seconds: u64) -> i64
    requires { seconds ≤ 50_000_000 }
    ensures { result ≡ pos (seconds / 86_400) -ℤ pos 5 }
{
    ((seconds / DAY) as i64) - 5
}

#[tactic(auto, using(crate::proofs::LocalTime::local_bad_day, crate::proofs::LocalTime::local_late_minute))]
pub fn local_time(day: i64, minute: u64, longitude: ArcSeconds) -> Result<Moment, Refusal>
    ensures { said_local result ≡ local_answer day minute longitude.0 }
{
    let j = units::day_index(day)?;
    if minute > 1_439 {
        return Err(Refusal::DayOrMinuteOutside);
    }
    let clock = longitude.to_clock();
    let arc = longitude.seconds();
    if arc < -648_000 || arc > 648_000 {
        return Err(Refusal::LongitudeBeyond);
    }
    let here = seconds_at(j, minute);
    let there = shifted(here, clock);
    // the seconds left over are cut off
    Ok(Moment {
        day: day_at(there),
        minute: there / MINUTE % 1_440,
    })
}
