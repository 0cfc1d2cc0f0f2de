//! The symbolic state of a listing: which nodes, which stand for words, are in registers, flags and the memory.
//!
//! It promises to whoever steps over a listing that [`start`] makes the state at the start as `specs/Starts.antt` says;
//! that addresses name cells and cells hold nodes as `specs/Cells.antt` says, and that sources have nodes as
//! `specs/Fetching.antt` says; and that each method that writes changes what it names and nothing else.
#![tactic(auto)]

mod addresses;
mod array;
mod cells;
mod fetching;
mod start_state;
mod state;
mod touch;

pub use cells::Cell;
pub use fetching::Word;
pub use start_state::start;
pub use state::SymState;
pub use touch::Touch;
