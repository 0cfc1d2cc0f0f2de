//! What every layer shares: texts, lists, identifiers, numbers in texts, and the limits of the whole tool.
//!
//! It promises to whoever reads a text that [`is_identifier`], [`numeral`] and [`word`] are the definitions of
//! `specs/Identifiers.antt` and `specs/Numbers.antt`, and to whoever keeps a [`Text`] or [`Items`] that these are
//! the bytes and the items that were put there.
#![tactic(auto)]

mod identifiers;
mod items;
mod limits;
mod numbers;
mod text;

pub use identifiers::is_identifier;
pub use items::Items;
pub use limits::{MAX_ARRAY_WORDS, MAX_IDENTIFIER_BYTES, MAX_LINES, MAX_OPERATIONS, MAX_PARAMS};
pub use numbers::{numeral, word};
pub use text::Text;
