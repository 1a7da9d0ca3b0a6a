// The writer: works out one year and fills the first 149 bytes of a lent buffer.
ghost use Rattle.law.specs.Document.{epicycles};
ghost use Rattle.law.specs.Book.{worked_answer};
ghost use Rattle.values.specs.Told.{Told};

use crate::head::Head;
use crate::write::put_year;
use units::Refusal;

// Nothing is written on a refusal. A year worked out may always be written, so its values are not tested again.
pub fn write_year(n: i64, buf: &mut [u8]) -> Result<(), Refusal>
    ensures { Told (worked_answer epicycles n) buf.old buf.new result }
{
    if buf.len() < 149 {
        return Err(units::no_room(n));
    }
    let worked = sun::work_year(n)?;
    let head = Head {
        n,
        day_name: worked.year.day_name,
        mansion: worked.year.mansion,
    };
    put_year(buf, head, &worked.terms);
    Ok(())
}
