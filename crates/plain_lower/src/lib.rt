//! The plain listing of a plan: each parameter and each value has a slot in the frame, and each operation loads its
//! operands from their slots and stores its results.
//!
//! It promises to whoever searches or replays that [`plain`] makes of every legal plan of every program the listing of
//! `specs/Plain.antt`, whatever the marks of the slots, and that in each block the operation owns exactly the
//! instructions of its template ([`blocks_own_their_templates`]). Whoever makes other listings over the same frame
//! finds the parts of this one here too.
#![tactic(auto)]

mod blocks;
mod firsts;
mod frame;
mod instrs;
mod laws;
mod lines;
mod listing;
mod middles;
mod rows;

pub use blocks::{first_of, push_stores};
pub use firsts::first_values;
pub use frame::push_load;
pub use laws::blocks_own_their_templates;
pub use lines::{load_word, unowned, word_at};
pub use listing::{plain, push_entry, push_exit, push_late_stores};
pub use middles::push_middle;
pub use rows::{Place, loads_of, saves_of};
