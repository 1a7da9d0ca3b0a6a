// A year from a head and the first 24 records of a lent list into the first 149 bytes of a lent buffer.
ghost use Rattle.std.specs.Prelude.{take};
ghost use Rattle.law.specs.Book.{write_answer};
ghost use Rattle.values.specs.Said.{given_year};
ghost use Rattle.values.specs.Told.{Told};

use sun::TermRecord;
use units::Refusal;
use values::Head;

// Nothing is written on a refusal; the later bytes stay.
pub fn write_year_from(head: Head, list: &[TermRecord], buf: &mut [u8]) -> Result<(), Refusal>
    ensures { Told (write_answer (given_year head (take 24 list.now))) buf.old buf.new result }
{
    let Some(terms) = list.first_chunk::<24>() else {
        return Err(units::no_room(head.n));
    };
    values::write_values(head, *terms, buf)
}
