// The bus reader: it follows the cycles on a NAND chip's bus, knows from them alone what the chip
// is doing and what is known of each block, and counts each rule that is broken.
#![tactic(auto)]

pub mod act;
pub mod breach;
pub mod effect;
pub mod reader;
pub mod state;
