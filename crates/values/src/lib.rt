// A year of the term book between its bytes and its values, and the bureau's own year written. No public function has a `requires`.
#![tactic(auto)]

mod head;
mod read;
mod worked_year;
mod write;

pub use head::Head;
pub use read::{ReadValues, read_values};
pub use worked_year::write_year;
pub use write::write_values;
