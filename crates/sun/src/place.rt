// Mean and true sun at the midnight of day d.
ghost use Rattle.std.specs.Prelude.{◌≡◌, ◌+◌, ◌*◌, ◌≤◌, ◌<◌, IfOk};
ghost use Rattle.law.specs.Document.{circle, daily_motion, epicycles, mean_answer, true_answer, run_on_answer};
ghost use Rattle.motion.specs.Working.{root_of, anomaly_of, headroom, place_answer};
ghost use Rattle.units.specs.Said.{said_number, said_signed};
ghost use Rattle.sun.specs.YearAndDay.{midnight_answer, lifted_answer};
ghost use Rattle.sun.specs.Said.{said_midnight};
ghost use Rattle.sun.specs.Moved.{moved_by};

use crate::constants::{CIRCLE, DAILY, HALF, PERIGEE_DAILY, PERIGEE_EPOCH, PERIGEE_YEARLY};
use crate::equation::{AddedUp, Tables, size_at};
use crate::midnight::{CountedYear, Midnight};
use units::Refusal;

// What the anomaly gains in a day.
const GAIN: u64 = DAILY - PERIGEE_DAILY;

// A circle and 2,000 years of the perigee more than document 01's anomaly has of its own, so that none is below 0.
const ANOMALY_LIFT: u64 = CIRCLE + 2_000 * PERIGEE_YEARLY - PERIGEE_EPOCH - 4 * GAIN;

// A run-on place is lifted by four days, and by more than any equation takes away, so that none is below 0.
const HEADROOM: u64 = 1_000_000_000_000;

pub(crate) const LIFT: u64 = HEADROOM + 4 * DAILY;

// What is added so that a lifted place is a circle above the document's, and a mean place too.
const BACK: u64 = CIRCLE - LIFT;

const MEAN_BACK: u64 = CIRCLE - 4 * DAILY;

impl Midnight {
    #[tactic(auto, using(motion::proofs::Root::root_of_le), unfolding(motion::specs::Working::anomaly_of))]
    fn anomaly(self) -> u64
        ensures { (result ≡ anomaly_of self.year.y self.day) × (result < circle) }
    {
        (self.year.root + (ANOMALY_LIFT - self.year.y * PERIGEE_YEARLY) + self.day * GAIN) % CIRCLE
    }

    #[tactic(auto, using(motion::proofs::Root::root_of_le))]
    fn lifted_mean(self) -> u64
        ensures { (result ≡ root_of self.year.y + headroom + self.day * daily_motion) × (468_000_000_000 ≤ result) × (result ≤ 89_000_000_000_000) }
    {
        self.year.root + HEADROOM + self.day * DAILY
    }

    // The run-on place, lifted.
    pub(crate) fn lifted_place<T: Tables>(self, tables: T) -> Result<u64, Refusal>
        ensures { (said_number result ≡ place_answer epicycles self.year.y self.day) × IfOk result (λ place. place ≤ 90_000_000_000_000) }
    {
        let a = self.anomaly();
        let size = size_at(a, tables)?;
        Ok(moved(self.lifted_mean(), a, size))
    }
}

// Step 5 on a lifted mean place: the equation's size is added below the half circle and taken away from there on.
#[tactic(auto, unfolding(crate::specs::Moved::moved_by))]
fn moved(mean: u64, a: u64, size: u64) -> u64
    requires { (468_000_000_000 ≤ mean) × (mean ≤ 89_000_000_000_000) × (size ≤ 468_000_000_000) }
    ensures { (result ≡ moved_by mean a size) × (result ≤ 90_000_000_000_000) }
{
    if a < HALF {
        return mean + size;
    }
    mean - size
}

fn midnight_at(n: i64, d: i64) -> Result<Midnight, Refusal>
    ensures { said_midnight result ≡ midnight_answer n d }
{
    let year = CountedYear::of(n)?;
    let day = units::day_index(d)?;
    Ok(Midnight { year, day })
}

// The run-on place at the day d of the year n, lifted.
fn lifted_at(n: i64, d: i64) -> Result<u64, Refusal>
    ensures { (said_number result ≡ lifted_answer epicycles n d) × IfOk result (λ place. place ≤ 90_000_000_000_000) }
{
    let at = midnight_at(n, d)?;
    at.lifted_place(AddedUp)
}

// Root + d daily motions, brought into the circle.
pub fn mean_place(n: i64, d: i64) -> Result<u64, Refusal>
    ensures { said_number result ≡ mean_answer n d }
{
    let at = midnight_at(n, d)?;
    Ok((at.year.root + at.day * DAILY + MEAN_BACK) % CIRCLE)
}

// Mean place plus equation, brought into the circle.
pub fn true_place(n: i64, d: i64) -> Result<u64, Refusal>
    ensures { said_number result ≡ true_answer epicycles n d }
{
    let place = lifted_at(n, d)?;
    Ok((place + BACK) % CIRCLE)
}

// Mean place plus equation, not brought into the circle: the terms use this one.
pub fn run_on_place(n: i64, d: i64) -> Result<i64, Refusal>
    ensures { said_signed result ≡ run_on_answer epicycles n d }
{
    let place = lifted_at(n, d)?;
    Ok((place as i64) - (LIFT as i64))
}
