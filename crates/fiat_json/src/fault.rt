use thiserror::Error;
use word_program::Place;

/// Why no program was read.
#[derive(Clone, Copy, Debug, PartialEq, Eq, Error)]
pub enum ReadFault {
    /// The bytes are no JSON that `serde_json` reads.
    #[error("the file is no JSON")]
    NotJson,
    /// The JSON breaks the rule with this code first, at this place.
    #[error("the program breaks rule {code}")]
    Program { code: u8, place: Place },
    /// There is no memory left.
    #[error("out of memory")]
    Memory,
}
