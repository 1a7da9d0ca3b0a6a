// The year at the start of lent bytes into a head and the first 24 records of a lent list.
ghost use Rattle.lists.specs.Read.{ListRead};

use book::NoYear;
use sun::TermRecord;
use units::Refusal;
use values::{Head, ReadValues};

// The byte after the year, and its head.
#[derive(Clone, Copy)]
pub struct ReadYear {
    pub end: usize,
    pub head: Head,
}

// Its terms go into the first 24 records of the list, each count 0. Refuses 6 for the list, then as the book does. On a refusal the
// list stays as it was.
#[tactic(auto, using(crate::proofs::ReadAnswers::list_read))]
pub fn read_year(bytes: &[u8], list: &mut [TermRecord]) -> Result<ReadYear, NoYear>
    ensures { ListRead bytes.now list.old list.new result }
{
    let Some(first) = list.first_chunk_mut::<24>() else {
        return Err(NoYear::Refused(Refusal::TooShort));
    };
    let ReadValues { end, head, terms } = values::read_values(bytes)?;
    *first = terms;
    Ok(ReadYear { end, head })
}
