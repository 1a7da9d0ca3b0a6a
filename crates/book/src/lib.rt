// The term book as bytes: reading it year by year, checking it, seeking a year. Inside, N is counted from -2,000 and a day from -4,
// as the book does. No public function has a `requires`.
#![tactic(auto)]

mod bytes;
mod fault;
mod reader;
mod record;
mod seek;
mod year;

pub use bytes::{byte_at, two_at};
pub use fault::Fault;
pub use reader::{Handed, Reader, next, open};
pub use seek::{NoYear, Part, seek_year, year_part};
pub use year::{Next, check_book, next_at};
