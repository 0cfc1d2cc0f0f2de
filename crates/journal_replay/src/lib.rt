//! The replay of journals: whether a journal and a listing come from a search for a program.
//!
//! It promises to whoever is handed a journal and a listing that [`replay`] gives the incumbent's number exactly where
//! all checks of `specs/Checks.antt` hold, and else tells the first one that fails. It draws each mutation again, and
//! makes the plans of the journal from the mutations alone; so what replays is a legal and whole journal, and a listing
//! that is correct for the program ([`replayed_listings_are_correct`]). It takes memory for a plan a lane, and none for
//! an entry.
#![tactic(auto)]

mod entries;
mod fault;
mod lanes;
mod laws;
mod listing;
mod opening;
mod player;
mod replaying;

pub use fault::ReplayFault;
pub use laws::{faults_come_exactly_where_they_are_first, replayed_listings_are_correct};
pub use replaying::replay;
