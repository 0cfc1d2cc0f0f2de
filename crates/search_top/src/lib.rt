//! The commands: what each does with its files, and the status that it ends with.
//!
//! [`search`] turns a program into a proved assembly listing. Its contract is the promise of the whole tool.
//! [`command`] is every other command. How all of them end is one relation of `command_frame`, over the tables of
//! `specs/Commands.antt`: which calls a command makes, what it means, and why it is refused.
//!
//! Each command is three parts: its loads, the pure work on what was read, and one write. A further one is a file of
//! code, a file of definitions, a row in each table, and an arm in [`command`].
#![tactic(auto)]

mod check_command;
mod commands;
mod emulate_command;
mod emulation;
mod eval_command;
mod lanes;
mod lanes_command;
mod opening;
mod outputs;
mod publishing;
mod replay_command;
mod search_command;
mod show_command;

pub use command_frame::{Status, exit_of, line_of};
pub use commands::command;
pub use search_command::search;
pub use search_workers::{FreeGate, Gate};
