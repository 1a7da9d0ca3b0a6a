// A year and a day of it, each counted from the least allowed on. The year's root is worked out once, where the year is counted.
ghost use Rattle.std.specs.Prelude.{◌≡◌, ◌≤◌};
ghost use Rattle.motion.specs.Working.{root_of};

// The year N as y = N + 2,000.
#[derive(Clone, Copy)]
pub(crate) struct CountedYear {
    pub(crate) y: u64,
    pub(crate) root: u64,
    ghost within: { y ≤ 4_000 },
    ghost rooted: { root ≡ root_of y },
}

// The midnight of its day d, as d + 4.
#[derive(Clone, Copy)]
pub(crate) struct Midnight {
    pub(crate) year: CountedYear,
    pub(crate) day: u64,
    ghost within: { day ≤ 374 },
}
