// What the programs share: text, numbers and refusals written, and the first line of an input. None has a `requires`.
#![tactic(auto)]

mod input;
mod output;

pub use input::first_line;
pub use output::{number, refusal_line, refused, signed, tell, text, two_digits};
