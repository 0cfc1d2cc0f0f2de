//! The board: the best listing that the lanes of a search have offered so far, and the journal of all their offers.
//!
//! A lane looks at the incumbent, changes its plan by the mutation that its seed draws for its next turn, makes a
//! listing of it, and offers that. It promises to whoever runs lanes beside each other that a [`Board`] keeps what
//! `specs/BoardOk.antt` says, whichever lanes look and offer in whichever order: the journal is legal, every offer in
//! it was a checked listing, and the incumbent is the last one of least cost. [`Board::look`] and [`Board::settle`] are
//! steps of the machine of journals. Of the board's calls only [`Board::begin`] takes memory.
#![tactic(auto)]

mod board;
mod events;
mod lanes;
mod offer;

pub use board::Board;
pub use events::{Event, Events, play};
pub use offer::{Offer, Settled, Sight};
