//! Programs in JSON, in this project's form after Fiat Cryptography's.
//!
//! It promises to whoever has a file's bytes the program that they are, or the first fault and its place. Which rules
//! a document breaks, and where, `specs/Misshapen.antt` says of the whole value; which fault is the first, the laws.
#![tactic(auto)]

mod bounds;
mod fault;
mod laws;
mod parts;
mod reader;
mod values;

pub use fault::ReadFault;
pub use laws::{first_fault_of_a_document_is_first, first_misshapen_part_is_the_fault};
pub use reader::read_program;
