// A year's values into the first 149 bytes of a lent buffer; the later bytes stay.
ghost use Rattle.std.specs.Prelude.{false, [], map, ◌≡◌, ◌≤◌, ◌<◌, length, drop};
ghost use Rattle.law.specs.Document.{bad_year, bad_day};
ghost use Rattle.law.specs.Index.{year_index, day_index};
ghost use Rattle.law.specs.Book.{two_of, bytes_of, bad_term_values, any_bad, bad_values, write_answer};
ghost use Rattle.sun.specs.Said.{values_of_term};
ghost use Rattle.values.specs.Said.{given_year};
ghost use Rattle.values.specs.Told.{Told, head_record, term_record};

use crate::head::Head;
use sun::TermRecord;
use units::Refusal;

// A day or a minute that may not be written.
fn is_bad(term: &TermRecord) -> bool
    ensures { result ≡ bad_term_values (values_of_term term.now) }
{
    units::day_index(term.day).is_err() || 1_439 < term.minute
}

fn any_bad(terms: &[TermRecord]) -> bool
    ensures { result ≡ any_bad (map values_of_term terms.now) }
{
    terms.iter().any(is_bad)
}

// Any value but N that may not be written.
#[tactic(auto, unfolding(law::specs::Book::bad_values))]
fn has_bad(head: Head, terms: &[TermRecord; 24]) -> bool
    ensures { result ≡ bad_values (given_year head terms.now) }
{
    59 < head.day_name || 27 < head.mansion || any_bad(terms)
}

// A number in two bytes, the high one first.
fn two_bytes(n: u64) -> [u8; 2]
    requires { n < 65_536 }
    ensures { result ≡ two_of n [] }
{
    (n as u16).to_be_bytes()
}

// N + 2,000. What may be written was tested: it is counted here, and in `day_index`, and not tested again.
fn year_index(n: i64) -> u64
    requires { bad_year n ≡ false }
    ensures { result ≡ year_index n }
{
    (n + 2_000) as u64
}

// d + 4.
fn day_index(d: i64) -> u64
    requires { bad_day d ≡ false }
    ensures { result ≡ day_index d }
{
    (d + 4) as u64
}

// The record of a head that may be written.
fn head_record(head: Head) -> [u8; 5]
    requires { (bad_year head.n ≡ false) × (head.day_name < 256) × (head.mansion < 256) }
    ensures { result ≡ head_record head [] }
{
    let [high, low] = two_bytes(year_index(head.n));
    [1, high, low, head.day_name as u8, head.mansion as u8]
}

// The record of term k, which may be written.
fn term_record(k: u8, term: TermRecord) -> [u8; 6]
    requires { bad_term_values (values_of_term term) ≡ false }
    ensures { result ≡ term_record k (values_of_term term) [] }
{
    let [day_high, day_low] = two_bytes(day_index(term.day));
    let [minute_high, minute_low] = two_bytes(term.minute);
    [2, k, day_high, day_low, minute_high, minute_low]
}

// The head and the terms of a year that may be written.
pub(crate) fn put_year(buf: &mut [u8], head: Head, terms: &[TermRecord; 24])
    requires { (149 ≤ length buf.old) × (bad_year head.n ≡ false) × (bad_values (given_year head terms.now) ≡ false) }
    ensures { buf.new ≡ bytes_of (given_year head terms.now) (drop 149 buf.old) }
{
    buf[..5].copy_from_slice(&head_record(head));
    for k in 0..24 {
        let at = 5 + k * 6;
        buf[at..at + 6].copy_from_slice(&term_record(k as u8, terms[k]));
    }
}

// Writes a year from its head and its terms, heeding no count. Nothing is written on a refusal.
pub fn write_values(head: Head, terms: [TermRecord; 24], buf: &mut [u8]) -> Result<(), Refusal>
    ensures { Told (write_answer (given_year head terms)) buf.old buf.new result }
{
    units::year_index(head.n)?;
    if buf.len() < 149 {
        return Err(Refusal::TooShort);
    }
    if has_bad(head, &terms) {
        return Err(Refusal::FieldOutside);
    }
    put_year(buf, head, &terms);
    Ok(())
}
