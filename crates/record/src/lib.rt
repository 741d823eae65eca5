// The driver's record: what is known of each block, and whether work on it is allowed.
#![tactic(auto)]

pub mod judgement;
pub mod record;
