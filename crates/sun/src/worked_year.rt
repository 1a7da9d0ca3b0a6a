// A year worked out by value: its four values and its 24 terms. Both tables are laid out once, and the root is worked out once.
ghost use Rattle.std.specs.Prelude.{Ok, map, ◌≡◌};
ghost use Rattle.reasoning.specs.InOrder.{in_order};
ghost use Rattle.motion.specs.Working.{term_of};
ghost use Rattle.law.specs.Document.{epicycles, terms_answer};
ghost use Rattle.sun.specs.Said.{values_of_term};
ghost use Rattle.sun.specs.Worked.{WorkedOut};

use crate::equation::Lent;
use crate::midnight::CountedYear;
use crate::term::{TermRecord, ZERO_RECORD, term_in};
use crate::year::{Year, year_in};
use units::Refusal;

#[derive(Clone, Copy, Debug, PartialEq, Eq)]
pub struct WorkedYear {
    pub year: Year,
    pub terms: [TermRecord; 24],
}

// The terms of the year, in place.
fn put_terms(
    counted: CountedYear,
    tables: Lent<'_>,
    terms: &mut [TermRecord; 24],
) -> Result<(), Refusal>
    ensures { (result ≡ Ok tt) × (map values_of_term terms.new ≡ in_order (term_of epicycles counted.y) 24) }
{
    for k in 0..24 {
        terms[k] = term_in(counted, k as u64, tables)?;
    }
    Ok(())
}

// The year n.
pub fn work_year(n: i64) -> Result<WorkedYear, Refusal>
    ensures { WorkedOut n (terms_answer epicycles n) result }
{
    let Ok(counted) = CountedYear::of(n) else {
        return Err(Refusal::YearOutside);
    };
    let mut sines = [0; 541];
    tables::rebuild_sines(&mut sines);
    let tangents = tables::tangent_table();
    let mut worked = WorkedYear {
        year: year_in(counted),
        terms: [ZERO_RECORD; 24],
    };
    put_terms(counted, Lent::of(&sines, &tangents), &mut worked.terms)?;
    Ok(worked)
}
