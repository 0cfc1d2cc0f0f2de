use thiserror::Error;

/// Why a text stands for no listing.
#[derive(Clone, Copy, Debug, PartialEq, Eq, Error)]
pub enum TextFault {
    /// The line with this number, counted from 1, is the first that is faulty. Where the text ends before the
    /// fourth header line, it is the number of lines plus 1.
    #[error("line {0}")]
    Line(u32),
    /// There are more than 65,536 instructions.
    #[error("more than 65536 instructions")]
    TooLong,
    /// The last instruction is not the only `ret`.
    #[error("the last instruction is not the only ret")]
    NoReturn,
    /// Memory ran out.
    #[error("out of memory")]
    Memory,
}
