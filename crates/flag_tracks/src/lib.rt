//! Where the values of a program are kept while its listing is written: in the carry flag, in the overflow flag, in a
//! register, in a slot of the frame, or nowhere.
//!
//! It promises to whoever chooses instructions that a value which [`Tracks`] tells to be in a flag was put there, and
//! that since then neither another value was put there, nor an instruction was told that writes the flag. At most one
//! value is in each of the two flags. Only [`Tracks::new`] takes memory, and the other calls take constant time.
#![tactic(auto)]

mod home;
mod tracks;

pub use home::Home;
pub use tracks::Tracks;
