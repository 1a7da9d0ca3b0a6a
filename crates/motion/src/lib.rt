// Document 01's rules in working forms, on numbers from 0 up; how the run-on place moves from day to day, and what follows for the terms' days: laws for the crates above. No code.
#![tactic(auto)]
