//! The tests of the crate that makes fast listings. They stand here and not in that crate, since a library with a test
//! of its own is proved twice.
#![tactic(auto)]

#[cfg(test)]
mod marks;
#[cfg(test)]
mod programs;
#[cfg(test)]
mod verdicts;
