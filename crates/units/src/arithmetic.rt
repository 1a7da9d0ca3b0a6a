// Sizes, rounding and the circle, for any numbers.
ghost use Rattle.std.specs.Prelude.{◌≡◌, nat_abs, ◌<◌};
ghost use Rattle.law.specs.Round.{half_up};
ghost use Rattle.law.specs.Document.{circle, in_circle};

// A circle, in units.
const CIRCLE: i64 = 1_296_000 * 60_000_000;

// n / d, half or more rounded up; 0 where d is 0.
pub fn half_up(n: u64, d: u64) -> u64
    ensures { result ≡ half_up n d }
{
    if d == 0 {
        return 0;
    }
    let down = n / d;
    let rest = n % d;
    if rest < d - rest {
        return down;
    }
    down + 1
}

// A signed number's size, for any of its type.
pub fn size(z: i64) -> u64
    ensures { result ≡ nat_abs z }
{
    z.unsigned_abs()
}

// An angle of either sign, in units, brought into the circle: never negative, and never the circle itself.
#[tactic(auto, using(crate::proofs::Circle::taken))]
pub fn in_circle(z: i64) -> u64
    ensures { (result ≡ in_circle z) × (result < circle) }
{
    z.rem_euclid(CIRCLE) as u64
}
