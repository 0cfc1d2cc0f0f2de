//! The assembly text of a listing, in the Intel syntax of the GNU assembler: [`write`] writes it, and [`read`]
//! reads it back.
//!
//! It promises that what is written is exactly `text_of` of `specs/Assembly.antt`; that a text is read exactly
//! where it stands for a listing (`Stands` of `specs/Texts.antt`, by the grammar of `specs/Grammar.antt`), and
//! else the first faulty line or the rule of listings that fails is named (`Refuses`); that no text stands for
//! two listings; and that what is written of a listing whose name is an identifier stands for it.
//!
//! The grammar is a relation. `specs/Items.antt` and `specs/Rows.antt` say the same by functions, which the
//! code follows, and proofs both ways tie the two.
#![tactic(auto)]

mod fault;
mod instructions;
mod items;
mod laws;
mod parts;
mod reading;
mod write_operands;
mod writing;

pub use fault::TextFault;
pub use laws::{fails_at_the_first_fault, one_listing, reading_is_the_relation, reads_back};
pub use reading::read;
pub use writing::write;
