//! The two ways by which the program reaches the world: named files, and what it says on standard output.
//!
//! [`Shelf`] is the port. Its contract says what a call does to the files and to the output where the shelf
//! tells them, and that a call fails only where the shelf counted a fault. [`MemoryShelf`] keeps everything in
//! memory, tells everything and fails where it is told to. [`HostShelf`] works on the files and the standard
//! output of the process, which no contract can tell.
#![tactic(auto)]

mod counts;
mod fault;
mod host;
mod memory;
mod shelf;
mod transfers;

pub use fault::Fault;
pub use host::HostShelf;
pub use memory::MemoryShelf;
pub use shelf::Shelf;
