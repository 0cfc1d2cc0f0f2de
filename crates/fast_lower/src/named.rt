//! Which registers the instructions of a listing name.
ghost use Rattle.std.specs.Prelude.{◌≡◌};
ghost use Rattle.fast_lower.specs.Named as spec;

use x86_instr::{Instr, Line, Mem, Reg, Rm, Src};

/// The registers that a function gives back as it found them, but for the stack pointer.
const PRESERVED: [Reg; 6] = [Reg::Rbx, Reg::Rbp, Reg::R12, Reg::R13, Reg::R14, Reg::R15];

fn is_same(reg: Reg, other: Reg) -> bool
    ensures { result ≡ spec.is_same reg other }
{
    reg.number() == other.number()
}

fn is_in_mem(reg: Reg, mem: Mem) -> bool
    ensures { result ≡ spec.is_in_mem reg mem }
{
    let Mem { base, index, .. } = mem;
    match index {
        Some(index) => is_same(reg, index.reg.reg()) || is_same(reg, base),
        None => is_same(reg, base),
    }
}

fn is_in_rm(reg: Reg, rm: Rm) -> bool
    ensures { result ≡ spec.is_in_rm reg rm }
{
    match rm {
        Rm::Reg(other) => is_same(reg, other),
        Rm::Mem(mem) => is_in_mem(reg, mem),
    }
}

fn is_in_src(reg: Reg, src: Src) -> bool
    ensures { result ≡ spec.is_in_src reg src }
{
    match src {
        Src::Reg(other) => is_same(reg, other),
        Src::Mem(mem) => is_in_mem(reg, mem),
        Src::Imm(_) => false,
    }
}

/// Whether an instruction names a register.
fn is_in(reg: Reg, instr: &Instr) -> bool
    ensures { result ≡ spec.is_in reg instr.now }
{
    match *instr {
        Instr::Bin { dst, src, .. } => is_in_src(reg, src) || is_same(reg, dst),
        Instr::Mov { dst, src }
        | Instr::Adcx { dst, src }
        | Instr::Adox { dst, src }
        | Instr::Imul { dst, src }
        | Instr::Cmov { dst, src, .. } => is_in_rm(reg, src) || is_same(reg, dst),
        Instr::Store { mem, src: dst } | Instr::Lea { dst, mem } => {
            is_in_mem(reg, mem) || is_same(reg, dst)
        }
        Instr::Mulx { hi, lo, src } => is_in_rm(reg, src) || is_same(reg, hi) || is_same(reg, lo),
        Instr::Shlx { dst, src, count } | Instr::Shrx { dst, src, count } => {
            is_in_rm(reg, src) || is_same(reg, dst) || is_same(reg, count)
        }
        Instr::Mul { src } => is_in_rm(reg, src),
        Instr::Test { a, b } => is_same(reg, a) || is_same(reg, b),
        Instr::Shrd { dst, src, .. } | Instr::Movzx { dst, src } => {
            is_same(reg, dst) || is_same(reg, src)
        }
        Instr::MovImm { dst, .. }
        | Instr::Un { dst, .. }
        | Instr::Shl { dst, .. }
        | Instr::Shr { dst, .. }
        | Instr::Set { dst, .. } => is_same(reg, dst),
        Instr::Clc | Instr::Ret => false,
    }
}

fn is_named(lines: &[Line], reg: Reg) -> bool
    ensures { result ≡ spec.is_named lines.now reg }
{
    lines.iter().any(|line| is_in(reg, &line.instr))
}

/// How many preserved registers the lines name.
#[tactic(auto, unfolding(crate::specs::Named::preserved_count))]
pub fn preserved_count(lines: &[Line]) -> usize
    ensures { result ≡ spec.preserved_count lines.now }
{
    PRESERVED
        .iter()
        .filter(|reg| is_named(lines, **reg))
        .count()
}
