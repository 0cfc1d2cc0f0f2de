//! The fast listing of a plan, in which the marks of the plan's slots say how sources are read.
//!
//! It promises to whoever searches that [`fast`] makes of every legal plan of every program a listing that keeps what
//! `specs/Fast.antt` lists: it has the program's name, realises the plan, is short and within its frame, uses no
//! preserved register that it cannot save, and keeps the source rule of `specs/Sources.antt`. Where no better listing
//! is there it is the fall-back of `specs/FallBack.antt`. [`is_fast`] tells of any listing whether it keeps all of
//! this. Whether a listing computes the program is left to the check of listings.
#![tactic(auto)]

mod blocks;
mod claims;
mod fall_back_listing;
mod listing;
mod moved;
mod named;
mod ruled;
mod sources;
mod taken;

pub use claims::is_fast;
pub use fall_back_listing::fall_back;
pub use listing::fast;
