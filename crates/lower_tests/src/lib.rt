//! The tests of the crate that makes the plain listing of a plan. They stand here and not in that crate, since a
//! library with a test of its own is proved twice.
#![tactic(auto)]

#[cfg(test)]
mod blocks;
#[cfg(test)]
mod examples;
#[cfg(test)]
mod programs;
#[cfg(test)]
mod rows;
