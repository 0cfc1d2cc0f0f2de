//! What the texts of listings share, whatever their syntax: tokens, lines and comments.
//!
//! It promises to whoever reads a text that the first token, the first line and the comment are those of the
//! definitions in `specs/`: [`next`] takes the first of `tokens`, [`next_line`] the first of `lines`, and
//! [`comment_number`] reads exactly the decimal numbers. Nothing here takes memory.
#![tactic(auto)]

mod comments;
mod lexing;
mod lines;

pub use comments::comment_number;
pub use lexing::{Lexeme, next};
pub use lines::{Cut, next_line, split_comment};
