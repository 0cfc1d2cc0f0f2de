//! The check of plain listings, which never fails.
//!
//! It promises to whoever searches that [`checked_plain`] makes of every legal plan a plain listing that is proved for
//! the program, and keeps both; and, of the definitions alone, that of every program the plain listing of every legal
//! plan, with whichever templates, does what the plan says, is proved and is short ([`plain_listings_are_proved`]).
#![tactic(auto)]

mod checks;
mod laws;

pub use checks::checked_plain;
pub use laws::plain_listings_are_proved;
