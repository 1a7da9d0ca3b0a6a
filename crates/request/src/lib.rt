// A request line and what is written for it: a line read byte by byte, its answer as text, and an
// input of lines answered block by block. No public function has a `requires`.
#![tactic(auto)]

mod answers;
mod first;
mod line;
mod text;

pub use answers::{Fed, feed, finish};
pub use first::{First, first_line};
pub use line::{Line, asked_by, line_end, line_step};
