//! The tests of the words of a command line. They stand here and not in `command_line`, since a library with a
//! test of its own is proved twice.
#![tactic(auto)]

#[cfg(test)]
mod lines;
