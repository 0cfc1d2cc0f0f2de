//! The tests of the crates that read, check and write programs. They stand here and not in those crates, since
//! a library with a test of its own is proved twice.
#![tactic(auto)]

#[cfg(test)]
mod evaluation;
#[cfg(test)]
mod parts;
#[cfg(test)]
mod rules;
#[cfg(test)]
mod shelves;
