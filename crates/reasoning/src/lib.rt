// What knows no calendar: an answer that may be a refusal, values in order, and what the proofs of every crate above share (signed numbers, tests, tables, promises, walks). No code.
#![tactic(auto)]
