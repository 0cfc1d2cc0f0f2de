//! Lines of a listing that may still change while the listing is written: a source may become another one, a line may
//! go away, and a line that does nothing may give its owner to another one.
//!
//! A listing that is written from drafts is tested by its check, so nothing is promised here but that each call is safe
//! and ends.
#![tactic(auto)]

mod draft;
mod finished;
mod owned_lines;

pub use draft::{Draft, Form, Source};
pub use finished::{immediate, instruction_of};
pub use owned_lines::DraftLines;
