// The vocabulary of a parallel NAND chip: parts, addresses, bus cycles, command bytes, status bytes,
// what is known of one block, and why a call is turned away.
#![tactic(auto)]

pub mod address;
pub mod cycle;
pub mod fault;
pub mod geometry;
pub mod opcode;
pub mod page;
pub mod part;
pub mod record;
pub mod status;
