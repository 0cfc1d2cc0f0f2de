//! The word of the memory that an instruction reads or writes.

ghost use Rattle.std.specs.Prelude.{◌≡◌};
ghost use Rattle.x86_instr.specs.Access as spec;

use crate::instr::Instr;
use crate::operand::{Mem, Rm, Src};

/// What an instruction accesses in the memory: at most one word, at the address of a memory operand.
#[derive(Clone, Copy, PartialEq, Eq)]
pub enum Access {
    /// No word.
    None,
    /// It reads the word there.
    Read(Mem),
    /// It writes the word there.
    Write(Mem),
}

impl Instr {
    /// The word of the memory that the instruction reads or writes, whatever the state is: `lea` accesses none,
    /// and a conditional move reads a source in memory in any case.
    pub fn access(&self) -> Access
        ensures { result ≡ spec.access_of self.now }
    {
        match *self {
            Instr::Store { mem, .. } => Access::Write(mem),
            Instr::Bin { src, .. } => src_access(src),
            Instr::Mov { src, .. }
            | Instr::Adcx { src, .. }
            | Instr::Adox { src, .. }
            | Instr::Mulx { src, .. }
            | Instr::Mul { src }
            | Instr::Imul { src, .. }
            | Instr::Shlx { src, .. }
            | Instr::Shrx { src, .. }
            | Instr::Cmov { src, .. } => rm_access(src),
            Instr::MovImm { .. }
            | Instr::Lea { .. }
            | Instr::Test { .. }
            | Instr::Un { .. }
            | Instr::Shl { .. }
            | Instr::Shr { .. }
            | Instr::Shrd { .. }
            | Instr::Set { .. }
            | Instr::Movzx { .. }
            | Instr::Clc
            | Instr::Ret => Access::None,
        }
    }
}

fn rm_access(rm: Rm) -> Access
    ensures { result ≡ spec.rm_access rm }
{
    match rm {
        Rm::Reg(_) => Access::None,
        Rm::Mem(mem) => Access::Read(mem),
    }
}

fn src_access(src: Src) -> Access
    ensures { result ≡ spec.src_access src }
{
    match src {
        Src::Reg(_) | Src::Imm(_) => Access::None,
        Src::Mem(mem) => Access::Read(mem),
    }
}
