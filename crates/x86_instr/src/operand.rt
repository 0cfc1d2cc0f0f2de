ghost use Rattle.std.specs.Prelude.{◌≡◌};
ghost use Rattle.x86_instr.specs.Registers.{number_of};

use crate::ranges::{IndexReg, Scale};

/// A general register of 64 bits.
#[derive(Clone, Copy, Debug, PartialEq, Eq)]
pub enum Reg {
    Rax,
    Rcx,
    Rdx,
    Rbx,
    Rsp,
    Rbp,
    Rsi,
    Rdi,
    R8,
    R9,
    R10,
    R11,
    R12,
    R13,
    R14,
    R15,
}

/// All registers, in the order of their numbers.
pub const REGISTERS: [Reg; 16] = [
    Reg::Rax,
    Reg::Rcx,
    Reg::Rdx,
    Reg::Rbx,
    Reg::Rsp,
    Reg::Rbp,
    Reg::Rsi,
    Reg::Rdi,
    Reg::R8,
    Reg::R9,
    Reg::R10,
    Reg::R11,
    Reg::R12,
    Reg::R13,
    Reg::R14,
    Reg::R15,
];

impl Reg {
    /// The register's number in the encoding of instructions, from 0 for `rax` to 15 for `r15`.
    pub fn number(self) -> u8
        ensures { result ≡ number_of self }
    {
        match self {
            Reg::Rax => 0,
            Reg::Rcx => 1,
            Reg::Rdx => 2,
            Reg::Rbx => 3,
            Reg::Rsp => 4,
            Reg::Rbp => 5,
            Reg::Rsi => 6,
            Reg::Rdi => 7,
            Reg::R8 => 8,
            Reg::R9 => 9,
            Reg::R10 => 10,
            Reg::R11 => 11,
            Reg::R12 => 12,
            Reg::R13 => 13,
            Reg::R14 => 14,
            Reg::R15 => 15,
        }
    }
}

/// An index register and its scale, by which it is multiplied.
#[derive(Clone, Copy, PartialEq, Eq)]
pub struct Index {
    pub reg: IndexReg,
    pub scale: Scale,
}

/// A memory operand: the word at `base + index * scale + disp`, modulo 2^64.
#[derive(Clone, Copy, PartialEq, Eq)]
pub struct Mem {
    pub base: Reg,
    pub index: Option<Index>,
    pub disp: i32,
}

/// A register or memory source.
#[derive(Clone, Copy, PartialEq, Eq)]
pub enum Rm {
    Reg(Reg),
    Mem(Mem),
}

/// A register, memory or immediate source. An immediate is extended with its sign to 64 bits.
#[derive(Clone, Copy, PartialEq, Eq)]
pub enum Src {
    Reg(Reg),
    Mem(Mem),
    Imm(i32),
}
