use word_text::{Items, Text};

/// The least and the greatest value of a word, both of which it may have.
#[derive(Clone, Copy, PartialEq, Eq)]
pub struct Bounds {
    pub low: u64,
    pub high: u64,
}

/// A list of bounds, one for each word of a parameter.
pub type BoundsList = Items<Bounds>;

/// What a parameter is for.
#[derive(Clone, Copy, PartialEq, Eq)]
pub enum Role {
    /// An array that the function writes.
    Output,
    /// An array that the function reads.
    InputArray,
    /// One word, passed by value.
    InputScalar,
}

/// A parameter: a name, a role, and the bounds of each word, of which a scalar has one.
#[derive(PartialEq, Eq, Drop)]
pub struct Param {
    pub name: Text,
    pub role: Role,
    pub bounds: BoundsList,
}
