// A model of a NAND chip: a port over cells that its owner lends.
#![tactic(auto)]

mod cells;
mod memory;
pub mod model;
mod state;
