// Document 01 as definitions, for every crate above. No code: specs/Document.antt is what a reader must believe.
#![tactic(auto)]
