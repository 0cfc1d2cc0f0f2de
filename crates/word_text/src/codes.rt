//! The rules that a program has to meet, by their codes.

/// The document has the form of a program, and the text that says whether outputs may overlap inputs is right.
pub const SHAPE: u8 = 1;

/// A name is an identifier, and a result is one, `_` or a word `name[index]`.
pub const NAME: u8 = 2;

/// A datatype is one that its section allows.
pub const DATATYPE: u8 = 3;

/// The bounds are as many as the words, and each is a word in order.
pub const BOUNDS: u8 = 4;

/// There are no more parameters than [`base::MAX_PARAMS`].
pub const PARAMETER_COUNT: u8 = 5;

/// There are no more operations than [`base::MAX_OPERATIONS`].
pub const OPERATION_COUNT: u8 = 6;

/// An operation's name is one of the table.
pub const OPERATION: u8 = 7;

/// An operation has as many arguments and results as its name asks.
pub const ARITY: u8 = 8;

/// An argument is an operand that stands there.
pub const OPERAND: u8 = 9;

/// No name is given twice.
pub const REPEATED_NAME: u8 = 10;

/// An argument that begins with a digit is a word.
pub const WORD: u8 = 11;

/// A shift count is a literal from 1 to 63.
pub const SHIFT: u8 = 12;

/// A carry, a borrow and a condition is a bit.
pub const BIT: u8 = 13;

/// A result `name[index]` is an output word that was not written, and every output word is written.
pub const OUTPUT: u8 = 14;

/// There is a return.
pub const NO_RETURN: u8 = 15;
