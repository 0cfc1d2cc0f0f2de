//! Nodes, which stand for words, and the rules that make nodes in a normal form.
//!
//! Two computations are the same where they make the same node. It promises to whoever compares a listing with a
//! program so that [`normal`] follows the rules of `specs/Rules.antt`, and that what it makes has the value of its
//! form and an interval that holds this value, in every table whose nodes are sound.
#![tactic(auto)]

mod bitwise;
mod borrow;
mod carry;
mod constants;
mod lists;
mod nodes;
mod numbers;
mod products;
mod rules;
mod select;
mod sum_interval;
mod sums;

pub use lists::{Numbers, Term, Terms};
pub use nodes::{Built, Form, Node, NodeKind, Nodes, is_same};
pub use rules::normal;
