//! Intervals: between which numbers each value of a program lies, whatever its inputs are.
//!
//! It promises to whoever uses a value's range that no evaluation within the program's bounds leaves it.
#![tactic(auto)]

mod laws;
mod ranges;
mod rows;

pub use intervals::Interval;
pub use laws::values_lie_by_number;
pub use ranges::intervals;
