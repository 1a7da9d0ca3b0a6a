// The year call: a year's terms into the first places of a list of 26 records, and all of the list afterwards.
ghost use Rattle.std.specs.Prelude.{◌≤◌};

use crate::answers::Answer;
use crate::terms::Term;
use std::io;
use std::io::Write;
use sun::TermRecord;

const SEVEN: TermRecord = TermRecord {
    day: 7,
    minute: 7,
    count: 7,
};

// The list is the first `room` of 26 records, each 7 before.
fn list(out: &mut impl Write, n: i64, room: usize) -> io::Result<()>
    requires { room ≤ 26 }
{
    let mut records = [SEVEN; 26];
    let filled = Answer(lists::fill_terms(&mut records[..room], n).map(|()| "all"));
    writeln!(out, "list {n} in {room}: {filled}")?;
    for record in records {
        writeln!(out, "{}", Term(record))?;
    }
    Ok(())
}

pub(crate) fn lines(out: &mut impl Write) -> io::Result<()> {
    for (n, room) in [(-2_001, 24), (-2_000, 24), (-1_337, 26), (-1, 25)] {
        list(out, n, room)?;
    }
    for room in [24, 23, 0] {
        list(out, 0, room)?;
    }
    list(out, 2_000, 26)?;
    list(out, 2_001, 23)
}
