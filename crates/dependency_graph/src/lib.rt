//! The dependency graph of a program: which operation needs which.
//!
//! It promises to whoever orders operations that [`Graph`] has for each operation exactly those that define its
//! operands, and those that have its results as operands. [`first_value`], [`reads_value_in`] and [`definer`]
//! tell the same of single operations, and take no memory.
#![tactic(auto)]

mod graph;
mod laws;
mod operands;
mod transpose;
mod values;

pub use graph::Graph;
pub use laws::{
    graph_has_needs_and_users, needed_ops_are_earlier, needs_and_users_are_converse,
    needs_are_the_needed_ops, values_are_defined_once,
};
pub use values::{definer, first_value, reads_value_in};
