// A year's 24 terms as records, and as columns of numbers: a record has no fixed form in C.
ghost use Rattle.std.specs.Prelude.{map, ◌≡◌};
ghost use Rattle.sun.specs.Said.{values_of_term};
ghost use Rattle.bhromilun.specs.Columns.{days_of, minutes_of, counts_of, terms_given};

use std::array;
use sun::TermRecord;

pub(crate) fn days_of(terms: &[TermRecord; 24]) -> [i64; 24]
    ensures { result ≡ days_of (map values_of_term terms.now) }
{
    array::from_fn(|k| terms[k].day)
}

pub(crate) fn minutes_of(terms: &[TermRecord; 24]) -> [u64; 24]
    ensures { result ≡ minutes_of (map values_of_term terms.now) }
{
    array::from_fn(|k| terms[k].minute)
}

pub(crate) fn counts_of(terms: &[TermRecord; 24]) -> [u64; 24]
    ensures { result ≡ counts_of (map values_of_term terms.now) }
{
    array::from_fn(|k| terms[k].count)
}

// Each count is 0.
pub(crate) fn terms_from(days: &[i64; 24], minutes: &[u64; 24]) -> [TermRecord; 24]
    ensures { map values_of_term result ≡ terms_given days.now minutes.now }
{
    array::from_fn(|k| TermRecord {
        day: days[k],
        minute: minutes[k],
        count: 0,
    })
}
