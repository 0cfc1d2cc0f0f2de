//! Tables of nodes that grow: a store, and a tail of nodes over a store that several workers share.
//!
//! It promises to whoever makes nodes, as the symbolic steps do, that a table grows as `interned` and `made` of
//! `specs/Interning.antt` say, for every [`Interner`], and that a node is looked up by its hash.
#![tactic(auto)]

mod interner;
mod store;
mod tail;

pub use interner::Interner;
pub use store::Store;
pub use tail::Tail;
