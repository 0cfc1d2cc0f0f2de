//! Where the words of a program are while a fast listing of it is written, in registers and in flags, and when the
//! plan uses them next.
//!
//! A listing that is written so is tested by its check, so nothing is promised here but that each call is safe and
//! ends. Values in registers are kept by `register_spill`, and values in flags by `flag_tracks`.
#![tactic(auto)]

mod flag_words;
mod held_words;
mod register_sets;
mod schedule;
mod weights;

pub use flag_words::{FlagWord, FlagWords, StatusFlag};
pub use held_words::HeldWords;
pub use register_sets::{
    CALLER_SAVED, NONE, PRESERVED, and_not, both, lowest, only, shared, size_of,
};
pub use schedule::Schedule;
pub use weights::Weight;
