//! Why a call of a shelf gives no answer.
use thiserror::Error;

/// Why a call of a shelf gives no answer.
#[derive(Clone, Copy, Debug, PartialEq, Eq, Drop, Error)]
pub enum Fault {
    /// The file or the output could not be read or written. The shelf counted it.
    #[error("the file or the output could not be read or written")]
    Failed,
    /// The file has more bytes than the call allows.
    #[error("the file is longer than the limit")]
    TooLong,
    /// There is no memory for what the file has.
    #[error("out of memory")]
    Memory,
}
