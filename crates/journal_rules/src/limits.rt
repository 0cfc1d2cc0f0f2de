//! The limits of searches.

/// How many lanes a search may have, each with a seed.
pub const MAX_LANES: usize = 64;

/// How many turns a lane may have.
pub const MAX_TURNS: usize = 65_536;

/// How many turns all lanes together may have, and so how many entries a journal.
pub const MAX_ENTRIES: usize = 1_048_576;
