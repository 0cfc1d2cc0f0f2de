//! The lines of products: by `mulx` and by `mul`, and of those that are made again at the first use of one of their
//! words.
//!
//! A listing that is written so is tested by its check, so nothing is promised here but that each call is safe and
//! ends.
#![tactic(auto)]

mod products;
mod remaking;
mod wide_products;

pub use products::{Product, next_factor_count, push_product};
pub use remaking::remake_operands;
pub use wide_products::push_wide_product;
