use word_operations::Kind;
use word_text::Items;

/// A word that an operation reads.
#[derive(Clone, Copy, PartialEq, Eq)]
pub enum Operand {
    /// The number itself.
    Literal(u64),
    /// A word of an input parameter, counted from 0; a scalar has the word 0 alone.
    Input { param: u8, word: u8 },
    /// An earlier result, by its value number.
    Value(u16),
}

/// Where an operation puts a result.
#[derive(Clone, Copy, PartialEq, Eq)]
pub enum Target {
    /// Later operations may read it by its value number.
    Value,
    /// Nothing reads it.
    Unused,
    /// A word of an output array, counted from 0.
    Output { param: u8, word: u8 },
}

/// The operands of an operation, in the order of its arguments.
pub type OperandList = Items<Operand>;

/// The targets of an operation, in the order of its results.
pub type TargetList = Items<Target>;

/// An operation: what it computes, from what, and where its results go.
#[derive(PartialEq, Eq, Drop)]
pub struct Op {
    pub kind: Kind,
    pub args: OperandList,
    pub targets: TargetList,
}
