// Tests of the tape and the model chip on scripts of cycles.
#![tactic(auto)]

#[cfg(test)]
mod both;
#[cfg(test)]
mod model;
#[cfg(test)]
mod scripts;
