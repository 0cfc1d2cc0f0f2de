//! The words of the command line: which command they are, as `clap` reads them.
//!
//! [`command_of`] promises to the commands that it gives the one [`Command`] that `specs/Lines.antt` makes of the
//! words, and nothing exactly where the words are no command.
//!
//! What it found keeps the rules of `specs/Lanes.antt`: the names of a search by lanes differ, and its numbers keep the
//! limits of `limits.rt`.
//!
//! A further command is a row of the table in `table.rt`, a variant of [`Command`], and a row of [`command_of`]'s
//! table of makers, each with its row in `specs/`.
#![tactic(auto)]

mod command;
mod inputs;
mod lanes;
mod laws;
mod limits;
mod numbers;
mod parsing;
mod table;

pub use command::{Command, Words, command_of};
pub use laws::plain_lines_are_commands;
pub use limits::{MAX_DIGITS, MAX_OFFERS, MAX_SEEDS, MAX_TURNS, MAX_WORKERS};
