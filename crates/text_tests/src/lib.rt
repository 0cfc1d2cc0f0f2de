//! The tests of the texts of listings. They stand here and not in the crates of the texts, since a library with
//! a test of its own is proved twice.
#![tactic(auto)]

#[cfg(test)]
mod assembly;
