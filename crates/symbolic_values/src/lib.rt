//! Symbolic steps: a listing run on nodes, which stand for words, in place of the words themselves.
//!
//! It promises to whoever checks a listing that [`sym_step`] is the step of `specs/Steps.antt` and, in its law, that a
//! symbolic step covers the machine's step ([`symbolic_steps_cover_steps`]).
#![tactic(auto)]

mod binary;
mod chains;
mod conditions;
mod laws;
mod moved;
mod products;
mod rows;
mod shifts;
mod steps;
mod storing;
mod unary;

pub use laws::symbolic_steps_cover_steps;
pub use moved::Moved;
pub use steps::sym_step;
