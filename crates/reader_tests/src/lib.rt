//! The tests of the crates that read programs and bound their values. They stand here and not in those
//! crates, since a library with a test of its own is proved twice.
#![tactic(auto)]

#[cfg(test)]
mod documents;
#[cfg(test)]
mod ranges;
#[cfg(test)]
mod reading;
