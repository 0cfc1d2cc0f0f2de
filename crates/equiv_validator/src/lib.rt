//! The validator: whether a listing is proved for a program.
//!
//! It promises to whoever publishes a listing that [`check`] says `Proved` exactly where the symbolic run of
//! `specs/Runs.antt` leaves what `specs/Checks.antt` asks for, and that a proved listing is correct: from every start
//! that the calling convention allows it stores the program's outputs, restores the saved registers, and changes
//! nothing but outputs and frame. Where it says `Not`, it tells the first failure. And it promises to whoever searches
//! for listings that [`Checked::checked`] answers `Yes` exactly where the listing is proved and realises its plan too,
//! and that a [`Checked`] keeps all of this (`specs/Kept.antt`, `specs/Answers.antt`). To whoever writes listings it
//! tells by [`first_difference`] whether one realises its plan.
#![tactic(auto)]

mod checked;
mod checking;
mod ending;
mod prepared;
mod realising;
mod running;
mod verdict;

pub use checked::{Answer, Checked};
pub use checking::{check, check_on};
pub use prepared::Prepared;
pub use realising::first_difference;
pub use verdict::{Proof, Verdict, Why};
