//! Templates: which instructions may compute the results of an operation.
//!
//! It promises to whoever chooses among them, lowers a plan or reads a listing the table of `specs/Table.antt`:
//! how many templates an operation has, and the mnemonics of the instructions that belong to it in each.
#![tactic(auto)]

mod choices;
mod laws;
mod table;

pub use choices::{count, mnemonics};
pub use laws::each_operation_has_a_template;
