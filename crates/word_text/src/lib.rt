//! The parts of a program as its file spells it: its texts, and the codes and places of its faults.
//!
//! It promises to the reader of a program what a text is: an index, a word of an array, or a datatype.
#![tactic(auto)]

pub mod codes;
mod fault;
mod names;
mod numbers;
mod parts;

pub use base::{Items, Text};
pub use fault::{Place, ProgramFault, Section};
pub use names::{
    bracketed, is_index, is_overlap, is_unused, is_word_form, may_overlap, starts_with_digit,
    word_parts,
};
pub use numbers::{array_words, index_below};
pub use parts::{RawOp, RawOps, RawParam, RawParams, RawProgram, Texts};
