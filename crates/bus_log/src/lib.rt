// Bus cycles as text: a log has one a line.
#![tactic(auto)]

pub mod hex;
pub mod line;
pub mod log_reader;
