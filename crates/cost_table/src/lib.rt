//! The cost of a listing, by which listings are compared.
//!
//! It promises to whoever searches for cheap listings that [`cost`] is the sum that `specs/Costs.antt` says.
#![tactic(auto)]

mod table;

pub use table::cost;
