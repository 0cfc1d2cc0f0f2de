//! The limits of a search by lanes.

/// How many seeds, one for each lane, a search may have.
pub const MAX_SEEDS: usize = 64;

/// How many workers may work at the lanes.
pub const MAX_WORKERS: u64 = 64;

/// How many turns a lane may have.
pub const MAX_TURNS: u64 = 65_536;

/// How many turns all lanes together may have, each of which makes one offer.
pub const MAX_OFFERS: u64 = 1_048_576;

/// How many digits a number may have.
pub const MAX_DIGITS: usize = 20;
