// Tests of the bus reader on logs of cycles; the tables say what the rules of the bus ask.
#![tactic(auto)]

#[cfg(test)]
mod breaches;
#[cfg(test)]
mod edges;
#[cfg(test)]
mod few;
#[cfg(test)]
mod holds;
#[cfg(test)]
mod logs;
#[cfg(test)]
mod marks;
#[cfg(test)]
mod phases;
#[cfg(test)]
mod places;
#[cfg(test)]
mod seen;
#[cfg(test)]
mod shown;
#[cfg(test)]
mod standing;
#[cfg(test)]
mod statuses;
