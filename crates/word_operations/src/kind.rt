/// What an operation computes. A shift count is from 1 to 63.
#[derive(Clone, Copy, PartialEq, Eq)]
pub enum Kind {
    /// `addcarryx` of c, a, b: the sum modulo 2^64, and the carry.
    AddCarry,
    /// `subborrowx` of c, a, b: a - b - c modulo 2^64, and the borrow.
    SubBorrow,
    /// `mulx` of a, b: the low word of the product, and the high word.
    MulX,
    /// `cmovznz` of c, z, nz: z where c is 0, else nz.
    CMov,
    /// `+`: the sum modulo 2^64.
    Add,
    /// `-`: the difference modulo 2^64.
    Sub,
    /// `*`: the product modulo 2^64.
    Mul,
    /// `&`, by bits.
    And,
    /// `|`, by bits.
    Or,
    /// `^`, by bits.
    Xor,
    /// `~`: all bits flipped.
    Not,
    /// `=`: the operand itself.
    Copy,
    /// `<<` by the count, modulo 2^64.
    Shl(u8),
    /// `>>` by the count.
    Shr(u8),
    /// `shrd` of lo, hi: the low word of the two words as one, shifted right by the count.
    Shrd(u8),
}
