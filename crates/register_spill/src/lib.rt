//! Which value of a program is in which register or slot of the frame, while its listing is written.
//!
//! It promises to whoever chooses instructions that no register holds two values, that a register which
//! [`Places::take`] gives is neither `rsp` nor one that the caller pinned, and that where no register is free, the
//! value whose next use in the plan is farthest goes to its slot of the frame. Only [`Places::new`] takes memory.
#![tactic(auto)]

mod choice;
mod laws;
mod places;
mod registers;
mod spot;
mod uses;

pub use laws::next_use_is_the_first_slot_that_reads;
pub use places::Places;
pub use registers::RegSet;
pub use spot::{Spot, Taken};
