//! The names and the operands of instructions in the Intel syntax.
//!
//! It promises to the readers and writers of texts that each name is the one of `specs/Names.antt`, and that
//! each operand is read from the tokens of a line exactly as `specs/Operands.antt` says: what the tokens begin
//! with, and the tokens behind it. `specs/Grammar.antt` says the same by relations, one a form of operand, and
//! proofs both ways tie the two. Nothing here takes memory.
#![tactic(auto)]

mod names;
mod operands;

pub use names::{
    byte_register_name, byte_register_named, mnemonic_name, mnemonic_named, register_name,
    register_named,
};
pub use operands::{
    after, byte_register_at, count_at, is_spaced, memory_at, register_at, rm_at, src_at, wide_at,
};
