// Prints what document 01 has run and compared: every table entry, the figures of sources 002, 003 and
// 004, and a spread of years, anomalies, days, terms and local times with their limits. tests/expected.py makes stdout.
#![tactic(auto)]

mod answers;
mod entries;
mod equations;
mod filled;
mod local_times;
mod places;
mod terms;
mod years;

use std::io;
use std::io::Write;

fn lines(out: &mut impl Write) -> io::Result<()> {
    entries::lines(out)?;
    years::lines(out)?;
    equations::lines(out)?;
    places::lines(out)?;
    terms::lines(out)?;
    filled::lines(out)?;
    local_times::lines(out)
}

// What cannot be written is missing from the output, and so is what was to follow.
fn main(rt: HostRuntime) {
    let _ = lines(&mut rt.stdout());
}
