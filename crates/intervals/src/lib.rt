//! Intervals of words: between which words a result lies, by the intervals of its operands.
//!
//! It promises to whoever computes an interval that the result of the operation on words of the operands' intervals
//! lies in it ([`results_lie_in_intervals`]).
#![tactic(auto)]

mod interval;
mod laws;
mod results;

pub use interval::{
    Interval, WORDS, between, difference, fitting, floors, full, ones, product, shifted, sum,
    window,
};
pub use laws::{ones_are_least, results_lie_in_intervals};
pub use results::{bits_and, bits_or, bits_xor, choice, product_high, product_low, shifted_right};
