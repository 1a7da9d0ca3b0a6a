// The sine table (541 entries, a step of 10′) and the tangent table (131, a step of 1′), for the radius 10,000,000:
// a whole table, one entry, or two entries of the sines with the step from each; past a table's end these are 0. No public function
// has a `requires`.
#![tactic(auto)]

mod sines;
mod tangents;

ghost use Rattle.std.specs.Prelude.{◌≡◌, ◌≤◌};
ghost use Rattle.law.specs.Entry.{sine_entry, tangent_entry};
ghost use Rattle.law.specs.Sines.{sines};
ghost use Rattle.law.specs.Tangents.{tangents};
ghost use Rattle.tables.specs.Steps.{steps_of, entry_and_step, two_entries};

use sines::SINE_STEPS;
use tangents::TANGENTS;

// An entry of the sine table and the step from it to the next, 0 where there is no next. Past the end both are 0.
#[derive(Clone, Copy, Default)]
pub struct EntryAndStep {
    pub entry: u64,
    pub step: u64,
}

#[derive(Clone, Copy)]
pub struct TwoEntries {
    pub first: EntryAndStep,
    pub second: EntryAndStep,
}

// The steps as they are stored, in memory that is only read: none is copied.
fn stored_steps() -> &'static [u16; 540]
    ensures { result.now ≡ steps_of sines }
{
    &SINE_STEPS
}

// The entry at k: the first k steps added up. Four bytes hold it, and the compiler adds more of them at a time.
fn added_up(k: usize) -> u32
    requires { k ≤ 540 }
    ensures { result ≡ sine_entry k }
{
    stored_steps()[..k]
        .iter()
        .map(|&step| u32::from(step))
        .sum()
}

#[tactic(auto, using(crate::proofs::Adding::past_the_end, crate::proofs::Adding::up_to_the_end))]
fn entry_and_step(k: usize) -> EntryAndStep
    ensures { result ≡ entry_and_step k }
{
    if 540 < k {
        return EntryAndStep::default();
    }
    EntryAndStep {
        entry: u64::from(added_up(k)),
        step: u64::from(stored_steps().get(k).copied().unwrap_or(0)),
    }
}

// The sine at k times 10 minutes of arc, for the radius 10,000,000.
pub fn sine_entry(k: usize) -> u64
    ensures { result ≡ sine_entry k }
{
    entry_and_step(k).entry
}

fn stored_tangents() -> &'static [u64; 131]
    ensures { result.now ≡ tangents }
{
    &TANGENTS
}

// The tangent at m minutes of arc, for the radius 10,000,000.
#[tactic(auto, using(crate::proofs::Entries::tangent_read))]
pub fn tangent_entry(m: usize) -> u64
    ensures { result ≡ tangent_entry m }
{
    stored_tangents().get(m).copied().unwrap_or(0)
}

// What two sines need, for a call that needs no more: only their two sums are added up.
pub fn two_sine_entries(k: usize, j: usize) -> TwoEntries
    ensures { result ≡ two_entries k j }
{
    TwoEntries {
        first: entry_and_step(k),
        second: entry_and_step(j),
    }
}

// The whole table, rebuilt where it is to stand, for a call that reads many entries.
pub fn rebuild_sines(table: &mut [u64; 541])
    ensures { table.new ≡ sines }
{
    let mut entry: u64 = 0;
    for (k, step) in stored_steps().iter().enumerate() {
        table[k] = entry;
        entry += u64::from(*step);
    }
    table[540] = entry;
}

// The same by value.
pub fn sine_table() -> [u64; 541]
    ensures { result ≡ sines }
{
    let mut table = [0; 541];
    rebuild_sines(&mut table);
    table
}

pub fn tangent_table() -> [u64; 131]
    ensures { result ≡ tangents }
{
    *stored_tangents()
}
