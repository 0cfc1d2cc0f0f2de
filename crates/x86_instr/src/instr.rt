ghost use Rattle.std.specs.Prelude.{◌≡◌};
ghost use Rattle.x86_instr.specs.Listings.{is_ret};

use crate::operand::{Mem, Reg, Rm, Src};
use crate::ranges::ShiftCount;

/// A condition on one flag: it is set, or, with an `N`, clear. `O` is the overflow flag, `C` the carry and
/// `Z` the zero flag.
#[derive(Clone, Copy, Debug, PartialEq, Eq)]
pub enum Cond {
    O,
    No,
    C,
    Nc,
    Z,
    Nz,
}

/// An operation on a destination register and a source.
#[derive(Clone, Copy, Debug, PartialEq, Eq)]
pub enum Bin {
    /// `add`
    Add,
    /// `adc`
    Adc,
    /// `sub`
    Sub,
    /// `sbb`
    Sbb,
    /// `and`
    And,
    /// `or`
    Or,
    /// `xor`
    Xor,
    /// `cmp`, which writes no register
    Cmp,
}

/// An operation on one register.
#[derive(Clone, Copy, Debug, PartialEq, Eq)]
pub enum Un {
    /// `inc`
    Inc,
    /// `dec`
    Dec,
    /// `neg`
    Neg,
    /// `not`
    Not,
}

/// An instruction.
#[derive(Clone, Copy)]
pub enum Instr {
    /// `mov` to a register from a register or memory.
    Mov { dst: Reg, src: Rm },
    /// `mov` to a register from an immediate of 64 bits.
    MovImm { dst: Reg, imm: u64 },
    /// `mov` to memory from a register.
    Store { mem: Mem, src: Reg },
    /// `lea`: the address of a memory operand.
    Lea { dst: Reg, mem: Mem },
    /// An operation whose result goes to its destination.
    Bin { op: Bin, dst: Reg, src: Src },
    /// `test`: the flags of `and`.
    Test { a: Reg, b: Reg },
    /// An operation on one register.
    Un { op: Un, dst: Reg },
    /// `adcx`: a sum with the carry flag, which goes there.
    Adcx { dst: Reg, src: Rm },
    /// `adox`: a sum with the overflow flag, whose carry goes there.
    Adox { dst: Reg, src: Rm },
    /// `mulx`: `rdx` times the source, to two registers.
    Mulx { hi: Reg, lo: Reg, src: Rm },
    /// `mul`: `rax` times the source, to `rdx` and `rax`.
    Mul { src: Rm },
    /// `imul`: the low word of a product.
    Imul { dst: Reg, src: Rm },
    /// `shl`
    Shl { dst: Reg, by: ShiftCount },
    /// `shr`
    Shr { dst: Reg, by: ShiftCount },
    /// `shrd`: a shift to the right that fills up from another register.
    Shrd { dst: Reg, src: Reg, by: ShiftCount },
    /// `shlx`: a shift to the left by a register's low six bits.
    Shlx { dst: Reg, src: Rm, count: Reg },
    /// `shrx`: the same to the right.
    Shrx { dst: Reg, src: Rm, count: Reg },
    /// `setcc`: a condition into the low byte.
    Set { cond: Cond, dst: Reg },
    /// `movzx` from the low byte of a register.
    Movzx { dst: Reg, src: Reg },
    /// `cmovcc`: the source where the condition holds.
    Cmov { cond: Cond, dst: Reg, src: Rm },
    /// `clc`
    Clc,
    /// `ret`
    Ret,
}

impl Instr {
    /// Whether the instruction is `ret`.
    pub fn is_ret(&self) -> bool
        ensures { result ≡ is_ret self.now }
    {
        matches!(self, Instr::Ret)
    }
}
