// The year at the start of lent bytes by value. What follows it is not looked at.
ghost use Rattle.std.specs.Prelude.{map, ◌≡◌, ◌+◌, ◌*◌, ◌≤◌, length, drop};
ghost use Rattle.reasoning.specs.InOrder.{in_order};
ghost use Rattle.law.specs.Book.{year_from, term_in};
ghost use Rattle.sun.specs.Said.{values_of_term};
ghost use Rattle.values.specs.Told.{ValuesRead};

use crate::head::Head;
use book::{Fault, byte_at, two_at};
use std::array;
use sun::TermRecord;
use units::Refusal;

// The byte after the year, its head and its terms, each count 0.
#[derive(Clone, Copy)]
pub struct ReadValues {
    pub end: usize,
    pub head: Head,
    pub terms: [TermRecord; 24],
}

// The term whose record starts at a byte.
fn term_at(bytes: &[u8], at: usize) -> TermRecord
    requires { at + 6 ≤ length bytes.now }
    ensures { values_of_term result ≡ term_in (drop at bytes.now) }
{
    TermRecord {
        day: (two_at(bytes, at + 2) as i64) - 4,
        minute: two_at(bytes, at + 4),
        count: 0,
    }
}

// The 24 terms that follow a head of 5 bytes.
fn terms_at(bytes: &[u8]) -> [TermRecord; 24]
    requires { 149 ≤ length bytes.now }
    ensures { map values_of_term result ≡ in_order (λ k. term_in (drop (5 + k * 6) bytes.now)) 24 }
{
    array::from_fn(|k| term_at(bytes, 5 + k * 6))
}

// No bytes at all are a book that ends inside a year.
pub fn read_values(bytes: &[u8]) -> Result<ReadValues, Fault>
    ensures { ValuesRead bytes.now (year_from 0 0 bytes.now) result }
{
    let Some(year) = book::next_at(bytes, 0, 0)? else {
        return Err(Fault {
            refusal: Refusal::OutOfTurn,
            byte: 0,
        });
    };
    let head = Head {
        n: (two_at(bytes, 1) as i64) - 2_000,
        day_name: byte_at(bytes, 3),
        mansion: byte_at(bytes, 4),
    };
    Ok(ReadValues {
        end: year.end,
        head,
        terms: terms_at(bytes),
    })
}
