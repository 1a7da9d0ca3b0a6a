// The library for C and Rust. Each function answers 0 or a refusal's number, one of them a number of its own too, and stores the rest
// through its last parameters; what an answer does not store stays as it was. No function has a `requires`.
#![tactic(auto)]

mod answer;
mod books;
mod columns;
mod reckoning;
