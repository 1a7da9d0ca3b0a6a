// Points of the picture, by the bureau's own sines in whole numbers. Arcs are in units, clockwise from the top; distances and
// coordinates in tenths. What is rounded, half or more up, is how far a point lies to the side: so left and right are alike.
ghost use Rattle.std.specs.Prelude.{◌≤◌};

use std::fmt;

const RADIUS: u64 = 10_000_000;

// The arc from an entry of the table to the next, 10 minutes.
const STEP: u64 = 36_000_000_000;

const QUARTER: u64 = 540 * STEP;

const MIDDLE: u64 = 5_000;

// A coordinate, written with its one decimal, where that is not 0.
#[derive(Clone, Copy)]
pub(crate) struct Tenths(u64);

impl fmt::Display for Tenths {
    fn fmt<W: fmt::Write>(&self, f: &mut fmt::Formatter<W>) -> fmt::Result {
        let whole = self.0 / 10;
        match self.0 % 10 {
            0 => write!(f, "{whole}"),
            decimal => write!(f, "{whole}.{decimal}"),
        }
    }
}

#[derive(Clone, Copy)]
pub(crate) struct Point {
    across: Tenths,
    down: Tenths,
}

impl fmt::Display for Point {
    fn fmt<W: fmt::Write>(&self, f: &mut fmt::Formatter<W>) -> fmt::Result {
        write!(f, "{} {}", self.across, self.down)
    }
}

// The circle round the picture's middle.
#[derive(Drop)]
pub(crate) struct Circle {
    sines: [u64; 541],
}

impl Circle {
    pub(crate) fn new() -> Circle {
        Circle {
            sines: tables::sine_table(),
        }
    }

    // No entry is above the radius, the last one: what stands in for others here only spares a proof.
    fn entry(&self, k: usize) -> u64
        ensures { result ≤ 10_000_000 }
    {
        self.sines.get(k).copied().unwrap_or(RADIUS).min(RADIUS)
    }

    // Document 01's sine of an arc up to the quarter: the entry below and the proportional part of the step, rounded down. Both
    // entries are weighed, so that no entry is taken from another.
    fn sine(&self, arc: u64) -> u64
        ensures { result ≤ 20_000_000 }
    {
        let k = (arc / STEP) as usize;
        let rest = arc % STEP;
        (self.entry(k) * (STEP - rest) + self.entry(k + 1) * rest) / STEP
    }

    // How far to the side a point lies, at a distance from the middle. The two quarters of a half circle mirror each other.
    fn aside(&self, arc: u64, distance: u16) -> u64
        ensures { result ≤ 5_000 }
    {
        let past = arc % QUARTER;
        let near = if arc / QUARTER % 2 == 0 {
            past
        } else {
            QUARTER - past
        };
        units::half_up(u64::from(distance) * self.sine(near), RADIUS).min(MIDDLE)
    }

    fn across(&self, arc: u64, distance: u16) -> Tenths {
        let aside = self.aside(arc, distance);
        if arc / QUARTER % 4 < 2 {
            Tenths(MIDDLE + aside)
        } else {
            Tenths(MIDDLE - aside)
        }
    }

    // What lies to the side at an arc three quarters further lies as far down here.
    fn down(&self, arc: u64, distance: u16) -> Tenths {
        self.across(arc % (4 * QUARTER) + 3 * QUARTER, distance)
    }

    pub(crate) fn point(&self, arc: u64, distance: u16) -> Point {
        self.oval_point(arc, distance, distance)
    }

    // At one distance to the side and another downwards.
    pub(crate) fn oval_point(&self, arc: u64, aside: u16, down: u16) -> Point {
        Point {
            across: self.across(arc, aside),
            down: self.down(arc, down),
        }
    }
}
