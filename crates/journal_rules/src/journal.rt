use base::Items;
use mutations::{Draw, Mutation};

/// An offer that a lane made. Entries are numbered from 1; 0 is the opening.
#[derive(Clone, Copy, Debug, PartialEq, Eq)]
pub struct Entry {
    /// The lane, counted from 0: at most 63.
    pub lane: u8,
    /// How many offers the lane had made before: at most 65,535.
    pub turn: u32,
    /// How many entries the journal had when the lane looked: at most 1,048,575.
    pub seen: u32,
    /// The change of the plan that the lane saw.
    pub mutation: Mutation,
    /// What the listing that was offered costs.
    pub cost: u64,
    /// Whether it costs at least what the plain listing of its plan costs.
    pub plain: bool,
}

/// The seed of each lane.
pub type Seeds = Items<u64>;

/// The entries in order.
pub type Entries = Items<Entry>;

/// A whole search: what it began with, and each offer.
#[derive(Drop)]
pub struct Journal {
    /// Which kinds of mutation were drawn.
    pub draw: Draw,
    /// The SHA-256 of the program's file.
    pub digest: [u8; 32],
    /// The seed of each lane: 1 to 64.
    pub seeds: Seeds,
    /// How many offers each lane makes: at most 65,536.
    pub turns: u32,
    /// What the listing of the opening plan costs.
    pub opening: u64,
    /// The offers in order.
    pub entries: Entries,
}
