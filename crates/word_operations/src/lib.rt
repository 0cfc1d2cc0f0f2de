//! The kinds of operations: their names and forms, what they compute, and which of their results are bits.
//!
//! It promises to whoever reads, evaluates or compiles a program the table of `specs/Operations.antt`, and that the
//! table is sound: the results of words are words ([`results_are_words`]), and those that are told to be bits
//! are 0 or 1 ([`bits_are_zero_or_one`]).
#![tactic(auto)]

mod arithmetic;
mod bits;
mod kind;
mod laws;
mod table;

pub use arithmetic::push_results;
pub use bits::{first_bit, second_bit};
pub use kind::Kind;
pub use laws::{bits_are_zero_or_one, results_are_words};
pub use table::{argument_count, kind_named, needs_bit, needs_shift, with_shift};
