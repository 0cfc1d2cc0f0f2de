//! The tests of the commands, over a shelf in memory. They stand here and not in `search_top`, since a library
//! with a test of its own is proved twice.
#![tactic(auto)]

#[cfg(test)]
mod calls;
#[cfg(test)]
mod check;
#[cfg(test)]
mod emulate;
#[cfg(test)]
mod eval;
#[cfg(test)]
mod lanes;
#[cfg(test)]
mod lines;
#[cfg(test)]
mod programs;
#[cfg(test)]
mod search;
#[cfg(test)]
mod show;
