/// The number of a key. Values come first, by their value numbers.
pub type Key = usize;

/// A word of an array in memory.
#[derive(Clone, Copy, Debug, PartialEq, Eq)]
pub struct Cell {
    /// The key of the place where the array begins.
    pub pointer: Key,
    /// The word, counted from 0.
    pub word: u8,
}

/// What a key stands for.
#[derive(Clone, Copy, Debug, PartialEq, Eq)]
pub enum Word {
    /// A value of the program.
    Value,
    /// A word of an input array.
    Input(Cell),
    /// An input that is passed as a word.
    Scalar,
    /// The place of an input array.
    InputPlace,
    /// The place of an output array.
    OutputPlace,
    /// A literal.
    Literal(u64),
}

impl Word {
    /// Whether the word is a literal.
    pub fn is_literal(self) -> bool {
        matches!(self, Word::Literal(_))
    }

    /// Whether the word can be had again only from a register, a slot of the frame or a flag.
    pub fn is_kept(self) -> bool {
        matches!(self, Word::Value | Word::Scalar)
    }
}
