// Cycles as text, for tests.
#![tactic(auto)]

pub mod run;
