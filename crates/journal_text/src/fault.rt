use thiserror::Error;

/// Why a text stands for no journal.
#[derive(Clone, Copy, Debug, PartialEq, Eq, Error)]
pub enum JournalFault {
    /// The line with this number, counted from 1, is the first that is faulty. Where the text ends early, it is the
    /// number of its whole lines plus 1.
    #[error("line {0}")]
    Line(u32),
    /// Line 1 is right but for its number, which is neither 1 nor 2.
    #[error("version {found}")]
    Version {
        /// The number: decimal, without leading zeros, and below 2^64.
        found: u64,
    },
    /// Memory ran out.
    #[error("out of memory")]
    Memory,
}
