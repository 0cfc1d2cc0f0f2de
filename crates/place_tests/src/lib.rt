//! The tests of the crates that say where the values of a program are while its listing is written. They stand here and
//! not in those crates, since a library with a test of its own is proved twice.
#![tactic(auto)]

#[cfg(test)]
mod flags;
#[cfg(test)]
mod programs;
#[cfg(test)]
mod registers;
