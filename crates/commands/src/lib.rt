// The command sequences of a NAND chip, on any port. Each sends its cycles in order and ends where the
// port has no room, or where a poll ends without a ready status. A sequence is lent the port, with what it
// needs and no more: a poll, a reset and the identity come before the part is known, and an erase or a
// program has no poll. So these are parameters and no struct, which most of them could not fill.
#![tactic(auto)]

mod bytes;
pub mod copy;
pub mod erase;
pub mod poll;
pub mod program;
pub mod read;
pub mod reset;
