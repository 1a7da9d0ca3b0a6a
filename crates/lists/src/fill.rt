// The year call: the terms of a year into the first 24 records of a lent list.
ghost use Rattle.std.specs.Prelude.{length};
ghost use Rattle.law.specs.Document.{epicycles, fill_answer};
ghost use Rattle.lists.specs.Fill.{Fills};

use sun::TermRecord;
use units::Refusal;

// On a refusal the list stays as it was.
#[tactic(auto, using(crate::proofs::ListFilled::fill_long, crate::proofs::ListFilled::list_stored))]
pub fn fill_terms(list: &mut [TermRecord], n: i64) -> Result<(), Refusal>
    ensures { Fills (fill_answer epicycles n (length list.old)) list.old list.new result }
{
    let Some(first) = list.first_chunk_mut::<24>() else {
        return Err(units::no_room(n));
    };
    let terms = sun::work_year(n)?.terms;
    *first = terms;
    Ok(())
}
