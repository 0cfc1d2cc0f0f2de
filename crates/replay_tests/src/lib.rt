//! The tests of the replay of journals. They stand here and not in that crate, since a library with a test of its own
//! is proved twice.
#![tactic(auto)]

#[cfg(test)]
mod checks;
#[cfg(test)]
mod looks;
#[cfg(test)]
mod reading;
