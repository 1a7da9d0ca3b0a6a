// What a search for a mark found.
ghost use Rattle.std.specs.Prelude.{◌*◌, ◌≤◌, ◌<◌};
ghost use Rattle.law.specs.Document.{second};

// The index of the day before the first midnight past the mark; what is gone from its midnight to the mark, and the step to the next
// midnight, in units; the count. No step is longer than the sun's longest.
#[derive(Clone, Copy)]
pub(crate) struct Found {
    pub(crate) day: u64,
    pub(crate) gone: u64,
    pub(crate) step: u64,
    pub(crate) count: u64,
    ghost within: { day ≤ 374 },
    ghost short: { gone < step },
    ghost longest: { step ≤ 3_679 * second },
}
