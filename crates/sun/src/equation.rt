// The equation of centre, document 01's steps 1 to 5. A call that works out many equations has the table of sines rebuilt, and lends it
// down with the tangents; one that needs a single equation has the two sines' entries added up, and the tangents.
ghost use Rattle.std.specs.Prelude.{◌≡◌, ◌+◌, ◌*◌, ◌-◌, ◌/◌, ◌≤◌, ◌<◌, ◌^◌, min, IfOk};
ghost use Rattle.law.specs.Document.{minute, ten_minutes, quarter, half, circle, radius, folded, sine, epicycles, equation_answer};
ghost use Rattle.law.specs.Entry.{sine_entry};
ghost use Rattle.law.specs.Round.{half_up};
ghost use Rattle.law.specs.Sines.{sines as sineTable};
ghost use Rattle.law.specs.Tangents.{tangents as tangentTable};
ghost use Rattle.motion.specs.Working.{height_of, base_of, tangent_of, angle_answer, size_answer};
ghost use Rattle.units.specs.Said.{said_number, said_signed};

use crate::constants::{CIRCLE, EPICYCLES, HALF, MINUTE, QUARTER, RADIUS};
use units::Refusal;

const TEN_MINUTES: u64 = 10 * MINUTE;

// The table of sines, lent: whoever holds one holds the definition's. It is lent where it was rebuilt: a struct with the entries
// themselves would stand on the stack beside them, 4 KB more.
#[derive(Clone, Copy)]
struct SineTable<'a> {
    entries: &'a [u64; 541],
    ghost laid: { entries.now ≡ sineTable },
}

// The same of the tangents.
#[derive(Clone, Copy)]
struct TangentTable<'a> {
    entries: &'a [u64; 131],
    ghost laid: { entries.now ≡ tangentTable },
}

#[derive(Clone, Copy)]
pub(crate) struct SineAndCosine {
    sine: u64,
    cosine: u64,
}

// Where an equation has its sines and its angle from.
pub(crate) trait Tables: Copy {
    // Of an arc up to a quarter circle.
    fn sine_and_cosine(self, x: u64) -> SineAndCosine
        requires { x ≤ quarter }
        ensures { (result.sine ≡ sine x) × (result.sine ≤ 10_000_000) × (result.cosine ≡ sine (quarter - x)) × (result.cosine ≤ 10_000_000) };

    // Step 4.
    fn angle_of(self, t: u64) -> Result<u64, Refusal>
        ensures { (said_number result ≡ angle_answer t) × IfOk result (λ size. size ≤ 468_000_000_000) };
}

// Both tables, lent to each equation of a call that works out many.
#[derive(Clone, Copy)]
pub(crate) struct Lent<'a> {
    sines: SineTable<'a>,
    tangents: TangentTable<'a>,
}

// For a call that needs a single equation: the two entries of the sines are added up, and there is no table of them.
#[derive(Clone, Copy)]
pub(crate) struct AddedUp;

impl<'a> SineTable<'a> {
    // The sine of an arc up to a quarter circle. The last entry has no next.
    fn sine_of(self, x: u64) -> u64
        requires { x ≤ quarter }
        ensures { (result ≡ sine x) × (result ≤ 10_000_000) }
    {
        let k = (x / TEN_MINUTES) as usize;
        let below = self.entries[k];
        if k == 540 {
            return below;
        }
        between(x, below, self.entries[k + 1] - below)
    }
}

impl<'a> TangentTable<'a> {
    // Steps of 2,908 to 2,914 put the minute at t / 2,914 or one further.
    fn angle_of(self, t: u64) -> Result<u64, Refusal>
        ensures { (said_number result ≡ angle_answer t) × IfOk result (λ size. size ≤ 468_000_000_000) }
    {
        let last = self.entries[130];
        if last < t {
            return Err(Refusal::TangentAbove);
        }
        if t == last {
            return Ok(130 * MINUTE);
        }
        let m = t / 2_914;
        let k = m as usize;
        let above = self.entries[k + 1];
        if t < above {
            return Ok(part(t, m, self.entries[k], above));
        }
        Ok(part(t, m + 1, above, self.entries[k + 2]))
    }
}

impl<'a> Lent<'a> {
    pub(crate) fn of(sines: &'a [u64; 541], tangents: &'a [u64; 131]) -> Lent<'a>
        requires { (sines.now ≡ sineTable) × (tangents.now ≡ tangentTable) }
    {
        Lent {
            sines: SineTable { entries: sines },
            tangents: TangentTable { entries: tangents },
        }
    }
}

impl Tables for Lent<'_> {
    fn sine_and_cosine(self, x: u64) -> SineAndCosine {
        SineAndCosine {
            sine: self.sines.sine_of(x),
            cosine: self.sines.sine_of(QUARTER - x),
        }
    }

    fn angle_of(self, t: u64) -> Result<u64, Refusal> {
        self.tangents.angle_of(t)
    }
}

impl Tables for AddedUp {
    fn sine_and_cosine(self, x: u64) -> SineAndCosine {
        let y = QUARTER - x;
        let found = tables::two_sine_entries(
            (x / TEN_MINUTES) as usize,
            (y / TEN_MINUTES) as usize,
        );
        SineAndCosine {
            sine: between(x, found.first.entry, found.first.step),
            cosine: between(y, found.second.entry, found.second.step),
        }
    }

    fn angle_of(self, t: u64) -> Result<u64, Refusal> {
        let tangents = tables::tangent_table();
        TangentTable { entries: &tangents }.angle_of(t)
    }
}

// The sine of an arc up to a quarter circle, from the entry below it and the step to the next.
#[tactic(auto, using(law::proofs::Sines::sine_between, law::proofs::Sines::sine_le))]
fn between(x: u64, below: u64, step: u64) -> u64
    requires { (x ≤ quarter) × (below ≡ sine_entry (x / ten_minutes)) × (step ≡ sine_entry (x / ten_minutes + 1) - sine_entry (x / ten_minutes)) }
    ensures { (result ≡ sine x) × (result ≤ 10_000_000) }
{
    below + step * (x % TEN_MINUTES) / TEN_MINUTES
}

// Step 1: the height from an arc's sine, and the base from its cosine.
#[tactic(auto, unfolding(law::specs::Round::half_up))]
fn leg(sine: u64) -> u64
    requires { sine ≤ 10_000_000 }
    ensures { (result ≡ half_up (epicycles * sine) radius) × (result ≤ 179_208) }
{
    units::half_up(EPICYCLES * sine, RADIUS)
}

// Steps 2 and 3 from both legs, at an arc from the perigee up to a half circle.
fn tangent_from(u: u64, height: u64, base: u64) -> u64
    requires { (u ≤ half) × (height ≡ height_of epicycles (folded u)) × (base ≡ base_of epicycles (folded u)) × (height ≤ 179_208) × (base ≤ 179_208) }
    ensures { result ≡ tangent_of epicycles u }
{
    if u <= QUARTER {
        return units::half_up(2 * height * RADIUS, RADIUS - base);
    }
    units::half_up(2 * height * RADIUS, RADIUS + base)
}

// To the nearer end of the whole. Of a half circle from the perigee the ends are the perigee and the apogee; of a circle both are the
// perigee.
fn nearer(x: u64, whole: u64) -> u64
    requires { x ≤ whole }
    ensures { (result ≡ min x (whole - x)) × (2 * result ≤ whole) }
{
    x.min(whole - x)
}

// The tangent with both legs: the base is the height at the complement of the arc.
fn tangent<T: Tables>(u: u64, tables: T) -> u64
    requires { u ≤ half }
    ensures { result ≡ tangent_of epicycles u }
{
    let both = tables.sine_and_cosine(nearer(u, HALF));
    tangent_from(u, leg(both.sine), leg(both.cosine))
}

// The minute m and the proportional part of it, between the entries below and above t.
fn part(t: u64, m: u64, below: u64, above: u64) -> u64
    requires { (m < 130) × (below ≤ t) × (t < above) × (above < 2 ^ 30) }
    ensures { (result ≡ m * minute + (t - below) * minute / (above - below)) × (result ≤ 468_000_000_000) }
{
    m * MINUTE + (t - below) * MINUTE / (above - below)
}

// The size of the equation at an anomaly in the circle.
pub(crate) fn size_at<T: Tables>(a: u64, tables: T) -> Result<u64, Refusal>
    requires { a < circle }
    ensures { (said_number result ≡ size_answer epicycles a) × IfOk result (λ size. size ≤ 468_000_000_000) }
{
    tables.angle_of(tangent(nearer(a, CIRCLE), tables))
}

// The equation at any anomaly, in units: step 5 adds it below the half circle and takes it away from there on.
pub fn equation_at(anomaly: i64) -> Result<i64, Refusal>
    ensures { said_signed result ≡ equation_answer epicycles anomaly }
{
    let a = units::in_circle(anomaly);
    let size = size_at(a, AddedUp)? as i64;
    if a < HALF {
        return Ok(size);
    }
    Ok(-size)
}
