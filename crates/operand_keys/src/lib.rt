//! The words that a fast listing of a program keeps in places, before any plan is known: for each of them a *key*.
//!
//! A value, a word of an input, the place of an array and a literal have keys. Operands that surely are the same word
//! have the same key: a value that is one number whatever the inputs are has the key of that literal, and the result
//! of `=` that of its operand. A listing that is written from keys is tested by its check, so nothing is promised here
//! but that each call is safe and ends.
#![tactic(auto)]

mod highs;
mod planned;
mod program_keys;
mod reading;
mod shapes;
mod words;

pub use planned::{NEVER, NextUses};
pub use program_keys::Keys;
pub use reading::keys_of;
pub use shapes::{LateStore, Shape};
pub use words::{Cell, Key, Word};
