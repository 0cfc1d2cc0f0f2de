//! What x86-64 listings mean: the machine's states and steps, the states in which the calling convention
//! lets a function start, and what it is for a listing to be correct for a program.
//!
//! It promises to whoever runs listings, as an emulator does, that [`State::start`] is the stated start state
//! of the definitions, that [`step`] is their step and [`run`] their run, all exactly, and that the last two
//! take no memory.
//!
//! The definitions are in `specs/`: `Machine` (states and steps), `Runs` (a listing's run), `Start`
//! (the calling convention), `Stated` (one start state) and `Correct`. The instructions follow the Intel
//! Software Developer's Manual, volume 2, at 64-bit operand size, and the start states the System V AMD64
//! psABI. The functions of the files `laws.rt` and `.._laws.rt` do nothing: their contracts are laws that the
//! definitions meet, among them that start states are free in what the convention leaves free, and that
//! listings which break it are not correct.
#![tactic(auto)]

mod arithmetic;
mod cells;
mod correct_laws;
mod execution;
mod laws;
mod listing_run;
mod run_laws;
mod shifts;
mod start;
mod start_laws;
mod state;
mod step_laws;

pub use cells::Cells;
pub use correct_laws::{
    changed_cell_is_refused, copy_in_place_reads_first, copy_keeps_registers,
    copy_leaves_the_input, copy_stores_the_output, correct_listing_ends, lost_register_is_refused,
    stuck_run_is_refused, wrong_output_is_refused,
};
pub use execution::step;
pub use laws::{overflow_is_signed, stuck_line_is_stuck};
pub use listing_run::{Stuck, run};
pub use run_laws::states_follow_by_steps;
pub use start_laws::{
    flags_are_free, functions_can_start, functions_start_anywhere, other_cells_are_free,
    other_registers_are_free, starts_meet_the_convention, stated_state_is_start,
};
pub use state::State;
pub use step_laws::{
    step_depends_on_its_reads, step_leaves_the_rest, step_needs_its_cell_and_flags,
    steps_keep_states,
};
