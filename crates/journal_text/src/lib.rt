//! The text of a journal: [`write`] writes it, and [`read`] reads it back.
//!
//! It promises that what is written is exactly `text_of` of `specs/Text.antt`; that a text is read exactly where it
//! stands for a journal (`Stands` of `specs/Stands.antt`: its lines are the journal's, which keeps the limits of
//! `specs/Limits.antt`), and else the other version or the first faulty line is named (`Refuses`); that no text stands
//! for two journals; and that what is written of a journal within the limits stands for it. [`digest`] is SHA-256.
//!
//! Nothing is said there of how a text is read. `specs/Fields.antt`, `specs/Entries.antt` and `specs/Reading.antt` say
//! it by functions, which the code follows, and proofs both ways tie them to the text.
#![tactic(auto)]

mod entries;
mod fault;
mod fields;
mod hashing;
mod laws;
mod limits;
mod lines;
mod progress;
mod reading;
mod seeds;
mod steps;
mod writing;

pub use fault::JournalFault;
pub use hashing::digest;
pub use laws::{fails_at_the_first_fault, one_journal, reading_is_the_relation, reads_back};
pub use limits::{
    MAX_CHAIN, MAX_COST, MAX_ENTRIES, MAX_LANE, MAX_SEEDS, MAX_SEEN, MAX_SLOT, MAX_TEMPLATE,
    MAX_TURN, MAX_TURNS,
};
pub use reading::read;
pub use writing::write;
