//! The limits of programs and listings.

/// How many parameters a program may have: as many as the calling convention passes in registers.
pub const MAX_PARAMS: usize = 6;

/// How many words an array of a program may have.
pub const MAX_ARRAY_WORDS: usize = 32;

/// How many operations a program may have.
pub const MAX_OPERATIONS: usize = 2_048;

/// How many bytes an identifier may have.
pub const MAX_IDENTIFIER_BYTES: usize = 64;

/// How many lines a listing may have.
pub const MAX_LINES: usize = 65_536;
