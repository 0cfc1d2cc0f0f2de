//! Journals of searches: the offers of plans that several lanes made, and the rules that they keep.
//!
//! A journal records each offer with what its lane had seen. It promises to whoever keeps, writes or replays one that
//! the plan of each entry follows from the entries before it ([`plans_follow_from_journals`]), that a legal journal is
//! legal entry by entry ([`journals_are_legal_by_entry`]), and that every interleaving of looks and offers of the
//! machine of `specs/Machine.antt` keeps a journal legal ([`every_interleaving_keeps_journals_legal`]).
#![tactic(auto)]

mod journal;
mod laws;
mod limits;

pub use journal::{Entries, Entry, Journal, Seeds};
pub use laws::{
    every_interleaving_keeps_journals_legal, journals_are_legal_by_entry,
    plans_follow_from_journals,
};
pub use limits::{MAX_ENTRIES, MAX_LANES, MAX_TURNS};
