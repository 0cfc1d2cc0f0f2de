//! The flags that an instruction reads, and those that it writes.

ghost use Rattle.std.specs.Prelude.{◌≡◌};
ghost use Rattle.x86_instr.specs.Flags as spec;

use crate::instr::{Bin, Cond, Instr, Un};

/// A set of flags.
#[derive(Clone, Copy, Debug, PartialEq, Eq)]
pub struct Flags {
    /// The carry flag is one of them.
    pub cf: bool,
    /// The overflow flag is one of them.
    pub of: bool,
    /// The zero flag is one of them.
    pub zf: bool,
}

const NO_FLAG: Flags = Flags {
    cf: false,
    of: false,
    zf: false,
};

const CARRY_ONLY: Flags = Flags {
    cf: true,
    of: false,
    zf: false,
};

const OVERFLOW_ONLY: Flags = Flags {
    cf: false,
    of: true,
    zf: false,
};

const ZERO_ONLY: Flags = Flags {
    cf: false,
    of: false,
    zf: true,
};

const ALL_BUT_CARRY: Flags = Flags {
    cf: false,
    of: true,
    zf: true,
};

const ALL_FLAGS: Flags = Flags {
    cf: true,
    of: true,
    zf: true,
};

impl Cond {
    /// The flag that decides the condition.
    pub fn flag(self) -> Flags
        ensures { result ≡ spec.flag_of self }
    {
        match self {
            Cond::O | Cond::No => OVERFLOW_ONLY,
            Cond::C | Cond::Nc => CARRY_ONLY,
            Cond::Z | Cond::Nz => ZERO_ONLY,
        }
    }
}

impl Instr {
    /// The flags on which the instruction depends.
    pub fn flags_read(&self) -> Flags
        ensures { result ≡ spec.flags_read self.now }
    {
        match *self {
            Instr::Bin { op, .. } => bin_reads(op),
            Instr::Adcx { .. } => CARRY_ONLY,
            Instr::Adox { .. } => OVERFLOW_ONLY,
            Instr::Set { cond, .. } | Instr::Cmov { cond, .. } => cond.flag(),
            Instr::Mov { .. }
            | Instr::MovImm { .. }
            | Instr::Store { .. }
            | Instr::Lea { .. }
            | Instr::Test { .. }
            | Instr::Un { .. }
            | Instr::Mulx { .. }
            | Instr::Mul { .. }
            | Instr::Imul { .. }
            | Instr::Shl { .. }
            | Instr::Shr { .. }
            | Instr::Shrd { .. }
            | Instr::Shlx { .. }
            | Instr::Shrx { .. }
            | Instr::Movzx { .. }
            | Instr::Clc
            | Instr::Ret => NO_FLAG,
        }
    }

    /// The flags that the instruction sets, clears or leaves undefined. Every other flag stays as it was.
    pub fn flags_written(&self) -> Flags
        ensures { result ≡ spec.flags_written self.now }
    {
        match *self {
            Instr::Un { op, .. } => un_writes(op),
            Instr::Adcx { .. } | Instr::Clc => CARRY_ONLY,
            Instr::Adox { .. } => OVERFLOW_ONLY,
            Instr::Bin { .. }
            | Instr::Test { .. }
            | Instr::Mul { .. }
            | Instr::Imul { .. }
            | Instr::Shl { .. }
            | Instr::Shr { .. }
            | Instr::Shrd { .. } => ALL_FLAGS,
            Instr::Mov { .. }
            | Instr::MovImm { .. }
            | Instr::Store { .. }
            | Instr::Lea { .. }
            | Instr::Mulx { .. }
            | Instr::Shlx { .. }
            | Instr::Shrx { .. }
            | Instr::Set { .. }
            | Instr::Movzx { .. }
            | Instr::Cmov { .. }
            | Instr::Ret => NO_FLAG,
        }
    }
}

fn bin_reads(op: Bin) -> Flags
    ensures { result ≡ spec.bin_reads op }
{
    match op {
        Bin::Adc | Bin::Sbb => CARRY_ONLY,
        Bin::Add | Bin::Sub | Bin::And | Bin::Or | Bin::Xor | Bin::Cmp => NO_FLAG,
    }
}

fn un_writes(op: Un) -> Flags
    ensures { result ≡ spec.un_writes op }
{
    match op {
        Un::Inc | Un::Dec => ALL_BUT_CARRY,
        Un::Neg => ALL_FLAGS,
        Un::Not => NO_FLAG,
    }
}
