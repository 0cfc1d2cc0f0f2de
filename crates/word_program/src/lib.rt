//! Straight-line programs over 64-bit words: what a program is, which parts make one, and what it computes.
//!
//! It promises to whoever reads a file that [`Program::new`] gives a program exactly where its parts break no rule
//! of `specs/Rules.antt`, and else the first rule that they break, want of memory apart. It promises to whoever
//! holds a [`Program`], as a listing's check or a compiler does, what every program keeps (`IsAccepted` of
//! `specs/Accepted.antt`): [`Program::params`] and [`Program::ops`] say so. What a program computes is `values_of`
//! and `outputs` of `specs/Values.antt`, and [`eval`] gives it; [`bits_are_zero_or_one`] says that the bits that a
//! carry, a borrow and a condition need are bits.
#![tactic(auto)]

mod bits;
mod body;
mod evaluation;
mod fault_laws;
mod inputs;
mod laws;
mod limits;
mod lookup;
mod missing;
mod operation;
mod parameter;
mod params;
mod program;
mod scope;

pub use evaluation::{EvalFault, check_inputs, eval};
pub use fault_laws::{first_fault_is_first, without_fault_nothing_fails};
pub use laws::{bits_are_zero_or_one, values_are_words};
pub use limits::MAX_VALUES;
pub use lookup::{is_input_array, is_output};
pub use operation::{Op, Operand, OperandList, Target, TargetList};
pub use parameter::{Bounds, BoundsList, Param, Role};
pub use program::Program;
pub use word_operations::Kind;
pub use word_text::{
    Items, Place, ProgramFault, RawOp, RawOps, RawParam, RawParams, RawProgram, Section, Text,
    Texts, codes,
};
