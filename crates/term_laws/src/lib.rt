//! Laws of the rules: forms that are made again, in another order, or turned round give the nodes that a table has.
//!
//! It promises to whoever makes forms one after another that a form keeps its number while the table grows
//! ([`numbers_stay`]).
#![tactic(auto)]

mod laws;

pub use laws::numbers_stay;
