//! Plans: orders of a program's operations, with a choice of instructions for each.
//!
//! It promises to whoever searches, lowers or checks plans what a legal plan is (`specs/Legal.antt`) and when a listing
//! realises one (`specs/Realises.antt`), that [`Plan::opening`] is legal, and that [`window`] gives the places to which
//! a slot may move, and no others. Only the calls that make a plan take memory.
#![tactic(auto)]

mod laws;
mod plan;
mod slot;
mod windows;

pub use laws::{
    each_operation_has_a_slot, listings_differ_first_at_one_slot, needed_operations_stand_before,
    slots_move_within_their_windows,
};
pub use plan::Plan;
pub use slot::Slot;
pub use windows::window;
