//! The tests of the crates that say which plans a program has and how they change. They stand here and not in those
//! crates, since a library with a test of its own is proved twice.
#![tactic(auto)]

#[cfg(test)]
mod choices;
#[cfg(test)]
mod plans;
#[cfg(test)]
mod programs;
