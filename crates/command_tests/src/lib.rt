// Tests of the command sequences on a tape and on the model chip, of the most cycles of each call, and
// of what each fault says.
#![tactic(auto)]

#[cfg(test)]
mod chips;
#[cfg(test)]
mod cycles;
#[cfg(test)]
mod faults;
#[cfg(test)]
mod most;
#[cfg(test)]
mod sequences;
#[cfg(test)]
mod tapes;
