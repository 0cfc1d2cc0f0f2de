//! The tests of the crates that make nodes and keep tables of them. They stand here and not in those crates, since a
//! library with a test of its own is proved twice.
#![tactic(auto)]

#[cfg(test)]
mod forms;
#[cfg(test)]
mod playing;
#[cfg(test)]
mod reading;
#[cfg(test)]
mod rules;
#[cfg(test)]
mod sums;
#[cfg(test)]
mod tables;
