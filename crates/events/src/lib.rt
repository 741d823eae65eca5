// What the bus reader tells of a log of cycles: each thing done, and each rule broken.
#![tactic(auto)]

pub mod event;
pub mod teller;
