//! The tests of the crates that say what instructions do and run them. They stand here and not in those
//! crates, since a library with a test of its own is proved twice.
#![tactic(auto)]

#[cfg(test)]
mod edge_steps;
#[cfg(test)]
mod edges;
#[cfg(test)]
mod listings;
#[cfg(test)]
mod reading;
#[cfg(test)]
mod rows;
#[cfg(test)]
mod runs;
#[cfg(test)]
mod starts;
#[cfg(test)]
mod steps;
#[cfg(test)]
mod tables;
