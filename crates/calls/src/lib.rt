// The table of calls: the cycles of each call of the survey and the driver, and the most of them.
#![tactic(auto)]

pub mod call;
pub mod slip;
