// Ports: the one way to a chip. Everything above drives a chip through the interface `Port`, so that
// one proof serves every end.
#![tactic(auto)]

pub mod fault;
pub mod port;
pub mod send;
pub mod tape;
