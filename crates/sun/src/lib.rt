// The bureau's sun: a year's mean solstice, the equation of centre, the mean and true place at
// midnight, and the days and minutes of the 24 terms. Inside, a year is y = N + 2,000 and a day j = d + 4. No public function has a `requires`.
#![tactic(auto)]

mod constants;
mod equation;
mod found;
mod midnight;
mod place;
mod term;
mod worked_year;
mod year;

pub use equation::equation_at;
pub use place::{mean_place, run_on_place, true_place};
pub use term::{Crossing, TermRecord, ZERO_RECORD, crossing_of, term_of};
pub use worked_year::{WorkedYear, work_year};
pub use year::{Year, year_of};
