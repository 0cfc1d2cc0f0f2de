//! The limits of the numbers in the text of a journal.

/// How many seeds, one for each lane, a journal may have.
pub const MAX_SEEDS: usize = journal_rules::MAX_LANES;

/// How many turns a lane may have.
pub const MAX_TURNS: u64 = journal_rules::MAX_TURNS as u64;

/// How many entries a journal may have, and how many its seeds and turns may ask for.
pub const MAX_ENTRIES: usize = journal_rules::MAX_ENTRIES;

/// What a listing may cost.
pub const MAX_COST: u64 = 1_048_576;

/// The greatest lane.
pub const MAX_LANE: u64 = 63;

/// The greatest turn of an entry.
pub const MAX_TURN: u64 = 65_535;

/// The greatest number of entries that a lane has seen.
pub const MAX_SEEN: u64 = 1_048_575;

/// The greatest slot.
pub const MAX_SLOT: u64 = 2_047;

/// The greatest number of a template.
pub const MAX_TEMPLATE: u64 = 4;

/// The greatest number of a chain's template; the least is 1.
pub const MAX_CHAIN: u64 = 2;
