ghost use Rattle.std.specs.Prelude.{◌≡◌};
ghost use Rattle.x86_instr.specs.Mnemonics as spec;

use crate::instr::{Bin, Cond, Instr, Un};

/// The mnemonics of the instructions, each under its own name.
#[derive(Clone, Copy, Debug, PartialEq, Eq)]
pub enum Mnemonic {
    Mov,
    Movzx,
    Lea,
    Not,
    Add,
    Adc,
    Sub,
    Cmp,
    Sbb,
    Neg,
    Inc,
    Dec,
    And,
    Or,
    Xor,
    Test,
    Clc,
    Adcx,
    Adox,
    Mulx,
    Mul,
    Imul,
    Shl,
    Shr,
    Shrd,
    Shlx,
    Shrx,
    Seto,
    Setno,
    Setc,
    Setnc,
    Setz,
    Setnz,
    Cmovo,
    Cmovno,
    Cmovc,
    Cmovnc,
    Cmovz,
    Cmovnz,
    Ret,
}

/// An instruction's mnemonic.
pub fn mnemonic_of(instr: &Instr) -> Mnemonic
    ensures { result ≡ spec.mnemonic_of instr.now }
{
    match instr {
        Instr::Mov { .. } | Instr::MovImm { .. } | Instr::Store { .. } => Mnemonic::Mov,
        Instr::Lea { .. } => Mnemonic::Lea,
        Instr::Bin { op, .. } => bin_mnemonic(*op),
        Instr::Test { .. } => Mnemonic::Test,
        Instr::Un { op, .. } => un_mnemonic(*op),
        Instr::Adcx { .. } => Mnemonic::Adcx,
        Instr::Adox { .. } => Mnemonic::Adox,
        Instr::Mulx { .. } => Mnemonic::Mulx,
        Instr::Mul { .. } => Mnemonic::Mul,
        Instr::Imul { .. } => Mnemonic::Imul,
        Instr::Shl { .. } => Mnemonic::Shl,
        Instr::Shr { .. } => Mnemonic::Shr,
        Instr::Shrd { .. } => Mnemonic::Shrd,
        Instr::Shlx { .. } => Mnemonic::Shlx,
        Instr::Shrx { .. } => Mnemonic::Shrx,
        Instr::Set { cond, .. } => set_mnemonic(*cond),
        Instr::Movzx { .. } => Mnemonic::Movzx,
        Instr::Cmov { cond, .. } => cmov_mnemonic(*cond),
        Instr::Clc => Mnemonic::Clc,
        Instr::Ret => Mnemonic::Ret,
    }
}

fn bin_mnemonic(op: Bin) -> Mnemonic
    ensures { result ≡ spec.bin_mnemonic op }
{
    match op {
        Bin::Add => Mnemonic::Add,
        Bin::Adc => Mnemonic::Adc,
        Bin::Sub => Mnemonic::Sub,
        Bin::Sbb => Mnemonic::Sbb,
        Bin::And => Mnemonic::And,
        Bin::Or => Mnemonic::Or,
        Bin::Xor => Mnemonic::Xor,
        Bin::Cmp => Mnemonic::Cmp,
    }
}

fn un_mnemonic(op: Un) -> Mnemonic
    ensures { result ≡ spec.un_mnemonic op }
{
    match op {
        Un::Inc => Mnemonic::Inc,
        Un::Dec => Mnemonic::Dec,
        Un::Neg => Mnemonic::Neg,
        Un::Not => Mnemonic::Not,
    }
}

fn set_mnemonic(cond: Cond) -> Mnemonic
    ensures { result ≡ spec.set_mnemonic cond }
{
    match cond {
        Cond::O => Mnemonic::Seto,
        Cond::No => Mnemonic::Setno,
        Cond::C => Mnemonic::Setc,
        Cond::Nc => Mnemonic::Setnc,
        Cond::Z => Mnemonic::Setz,
        Cond::Nz => Mnemonic::Setnz,
    }
}

fn cmov_mnemonic(cond: Cond) -> Mnemonic
    ensures { result ≡ spec.cmov_mnemonic cond }
{
    match cond {
        Cond::O => Mnemonic::Cmovo,
        Cond::No => Mnemonic::Cmovno,
        Cond::C => Mnemonic::Cmovc,
        Cond::Nc => Mnemonic::Cmovnc,
        Cond::Z => Mnemonic::Cmovz,
        Cond::Nz => Mnemonic::Cmovnz,
    }
}
