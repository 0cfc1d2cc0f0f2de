//! Workers: they make the offers of a search beside each other, and put them on its board.
//!
//! It promises to whoever makes an offer that [`make_offer`] gives the one that a look asks for
//! (`specs/Offers.antt`), whose listing is proved, and that the board takes it while the look is kept
//! ([`offers_are_due`]). It promises to whoever searches that [`finish`] makes every turn that is missing, and that it
//! only appends to the journal. Of [`search_all`] nothing is promised but that the board stays a board: which offers
//! workers make in which order depends on the threads, and every order keeps what a board promises.
#![tactic(auto)]

mod finishing;
mod gate;
mod laws;
mod offers;
mod rounds;
mod worker;

pub use finishing::finish;
pub use gate::{FreeGate, Gate};
pub use laws::offers_are_due;
pub use offers::make_offer;
pub use worker::{Worker, search_all};
