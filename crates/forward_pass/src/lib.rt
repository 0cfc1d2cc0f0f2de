//! The fast listing of a plan: one forward pass over its slots, which keeps words in registers, carries bits in both
//! flags, and knows beforehand when each word is used next.
//!
//! It promises to whoever searches nothing but that [`lowered`] is safe and ends: its listing is to be tested, and
//! another one taken where the test fails.
#![tactic(auto)]

mod arithmetic;
mod bitwise;
mod choices;
mod copies;
mod frame_ends;
mod listings;
mod pairs;
mod shifts;
mod slots;
mod sums;

pub use listings::lowered;
