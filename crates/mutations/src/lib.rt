//! Mutations: the changes of a plan that a search tries, and the random words that draw them.
//!
//! It promises to whoever records, replays or checks a search that [`words`] are those of ChaCha20 for a seed and a
//! turn, and that [`drawn`] and [`apply`] are the definitions of `specs/Mutations.antt`: four words, a plan and a draw
//! determine one mutation, and a legal plan stays legal. What a chain of carries is stands in `specs/Chains.antt`. None
//! of these calls takes memory.
#![tactic(auto)]

mod chains;
mod change;
mod drawing;
mod laws;
mod mutation;
mod random;

pub use change::apply;
pub use drawing::drawn;
pub use laws::{chains_go_on, drawn_mutations_keep_plans_legal};
pub use mutation::{Draw, Mutation};
pub use random::words;
