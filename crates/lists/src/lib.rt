// The calls that are lent a list of records: the terms of a year into it, a year read into it, and a year written from it.
// No public function has a `requires`.
#![tactic(auto)]

mod fill;
mod read;
mod write;

pub use fill::fill_terms;
pub use read::{ReadYear, read_year};
pub use write::write_year_from;
