//! How every command ends: its status, and what that says of its calls of a shelf.
//!
//! A command is data (`specs/Ends.antt`): the files that it loads, those that it stores, and a word on standard
//! output. `Ends` says once for all commands what each [`Status`] means, by what the command makes of its files
//! and why it refuses them. The loads and the writes that commands share are here.
#![tactic(auto)]

mod digested;
mod format;
mod journal;
mod loading;
mod status;
mod writing;

pub use digested::{DigestedProgram, load_digested_program};
pub use format::{ASM_LIMIT, Format, JOURNAL_LIMIT, PROGRAM_LIMIT};
pub use journal::load_journal;
pub use loading::{load_listing, load_program};
pub use status::{Status, exit_of, line_of};
pub use writing::{output_name, say_text, store_and_say, store_both_and_say};
