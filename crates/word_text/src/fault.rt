use thiserror::Error;

/// The part of a program that a place lies in.
#[derive(Clone, Copy, Debug, PartialEq, Eq)]
pub enum Section {
    /// The program as a whole.
    Top,
    /// Its return parameters.
    Returns,
    /// Its argument parameters.
    Arguments,
    /// Its operations.
    Body,
}

/// A place in a program: an item of a section and a part of that item, both counted from 0.
/// At [`Section::Top`] both are 0.
#[derive(Clone, Copy, Debug, PartialEq, Eq)]
pub struct Place {
    pub section: Section,
    pub item: u32,
    pub inner: u32,
}

/// Why there is no program.
#[derive(Clone, Copy, Debug, PartialEq, Eq, Error)]
pub enum ProgramFault {
    /// The parts break a rule; this is the code of the first that they break, and the place.
    #[error("the program breaks rule {code}")]
    Rule { code: u8, place: Place },
    /// There is no memory left.
    #[error("out of memory")]
    Memory,
}
