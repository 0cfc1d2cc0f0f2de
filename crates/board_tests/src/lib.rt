//! The tests of the board and of the workers that search on it. They stand here and not in those crates, since a
//! library with a test of its own is proved twice.
#![tactic(auto)]

#[cfg(test)]
mod boards;
#[cfg(test)]
mod listings;
#[cfg(test)]
mod playing;
#[cfg(test)]
mod programs;
#[cfg(test)]
mod searching;
#[cfg(test)]
mod settling;
