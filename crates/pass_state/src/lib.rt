//! Where the words of a program are while a fast listing of it is written, and the lines that move them: to registers,
//! to flags, to slots of the frame, or away, to be made again.
//!
//! A listing that is written so is tested by its check, so nothing is promised here but that each call is safe and
//! ends. Where a word cannot be found, or no register is left, the pass is lost ([`Pass::is_lost`]), and goes on
//! harmlessly.
#![tactic(auto)]

mod allocation;
mod eviction;
mod fetching;
mod flag_moves;
mod operands;
mod results;
mod state;

pub use fetching::{array_word, registers_in};
pub use operands::Choice;
pub use state::{Pass, frame_word};
