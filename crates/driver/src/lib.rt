// The flash driver: a survey that finds the marked blocks, the driver that it becomes, and scripts of
// calls on them.
#![tactic(auto)]

mod admit;
mod answers;
mod arguments;
mod chain;
mod copying;
pub mod driver;
mod ends;
mod identity;
mod keeping;
mod lookup;
mod perform;
mod reads;
pub mod run;
pub mod script;
mod session;
pub mod slip;
mod stage;
pub mod standing;
mod state;
pub mod survey;
mod work;
