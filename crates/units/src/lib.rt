// What every call above shares: the refusals and their numbers, the answers, seconds of arc and of
// clock, and the edges where a signed N or day becomes a count. No public function has a `requires`.
#![tactic(auto)]

mod arithmetic;
mod index;
mod refusal;
mod seconds;

pub use arithmetic::{half_up, in_circle, size};
pub use index::{day_index, no_room, year_index};
pub use refusal::Refusal;
pub use seconds::{ArcSeconds, ClockSeconds};
