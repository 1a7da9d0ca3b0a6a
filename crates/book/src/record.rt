// One record, where a head or a term is due: its length, or its refusal in the order 8, 7, 10, 9.
ghost use Rattle.std.specs.Prelude.{◌≡◌, ◌<◌, ◌≤◌, length, IfOk, IfSome, unwrap_or};
ghost use Rattle.law.specs.Book.{record_size, head_size, out_of_turn, out_of_range, record_answer};
ghost use Rattle.book.specs.Said.{said_due, said_record};

use crate::bytes::{byte_at, two_at};
use units::Refusal;

// What is due: a head whose N + 2,000 is at least so much, or term k.
#[derive(Clone, Copy)]
pub(crate) enum Due {
    Head(u64),
    Term(u64),
}

impl Due {
    // A head or term where the other is due, an N not above the year before, or a k not due.
    #[tactic(auto, unfolding(law::specs::Book::out_of_turn))]
    fn is_out_of_turn(self, b: &[u8]) -> bool
        ensures { result ≡ out_of_turn b.now (said_due self) }
    {
        match self {
            Due::Head(least) => byte_at(b, 0) != 1 || two_at(b, 1) < least,
            Due::Term(k) => byte_at(b, 0) != 2 || byte_at(b, 1) != k,
        }
    }

    #[tactic(auto, unfolding(law::specs::Book::out_of_range))]
    fn is_out_of_range(self, b: &[u8]) -> bool
        ensures { result ≡ out_of_range b.now (said_due self) }
    {
        match self {
            Due::Head(_) => 4_000 < two_at(b, 1) || 59 < byte_at(b, 3) || 27 < byte_at(b, 4),
            Due::Term(_) => 374 < two_at(b, 2) || 1_439 < two_at(b, 4),
        }
    }
}

// A record's length by its kind.
#[tactic(auto, unfolding(law::specs::Book::record_size))]
fn record_size(kind: u64) -> Option<usize>
    ensures value { unwrap_or result 0 ≡ record_size kind }
    ensures some { IfSome result (λ size. 0 < size) }
{
    match kind {
        1 => Some(5),
        2 => Some(6),
        _ => None,
    }
}

// The length of the record at the start of b. Inlined, as its caller is: a book of 4,001 years is checked a tenth more quickly.
#[tactic(auto, unfolding(law::specs::Book::record_answer))]
#[inline(always)]
pub(crate) fn check_record(b: &[u8], due: Due) -> Result<usize, Refusal>
    ensures answer { said_record result ≡ record_answer b.now (said_due due) }
    ensures size { IfOk result (λ size. (size ≡ head_size b.now) × (size ≤ length b.now)) }
{
    let size = record_size(byte_at(b, 0)).ok_or(Refusal::KindUnknown)?;
    if b.len() < size {
        return Err(Refusal::RecordCutOff);
    }
    if due.is_out_of_turn(b) {
        return Err(Refusal::OutOfTurn);
    }
    if due.is_out_of_range(b) {
        return Err(Refusal::FieldOutside);
    }
    Ok(size)
}
