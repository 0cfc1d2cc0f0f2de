//! The nodes of a program: which nodes its inputs, its operations and its outputs have, and in which order they are
//! made.
//!
//! It promises to whoever compares a listing with a program that [`source`] makes the nodes of the program as
//! `specs/Sources.antt` says and, in its law, that these nodes have the values of the program
//! ([`source_nodes_have_values`]). To whoever makes nodes of other forms it gives [`make`] and the forms of sums,
//! carries and borrows.
#![tactic(auto)]

mod forms;
mod inputs;
mod laws;
mod operands;
mod results;
mod source_nodes;

pub use forms::{borrow1, borrow2, carry2, carry3, lin1, make, minus, plus, sum2, sum3, times};
pub use inputs::input_form;
pub use laws::source_nodes_have_values;
pub use source_nodes::{SourceNodes, source};
