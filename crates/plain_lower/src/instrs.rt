ghost use Rattle.std.specs.Prelude.{◌≡◌, ◌≤◌, true, Some};
ghost use Rattle.x86_instr.specs.Ranges.{is_index_reg};
ghost use Rattle.x86_instr.specs.declared.operand.Reg.TheVariants.{Rax, Rcx};
ghost use Rattle.x86_instr.specs.declared.instr.Instr.TheVariants as instrs;
ghost use Rattle.plain_lower.specs.Blocks as spec;

use x86_instr::{Bin, Cond, Index, IndexReg, Instr, Mem, Reg, Rm, Scale, ShiftCount, Src, Un};

/// `op rax, rcx`
pub fn bin(op: Bin) -> Instr
    ensures { result ≡ spec.bin op }
{
    Instr::Bin {
        op,
        dst: Reg::Rax,
        src: Src::Reg(Reg::Rcx),
    }
}

/// `adcx rax, rcx`
pub fn adcx() -> Instr
    ensures { result ≡ spec.adcx }
{
    Instr::Adcx {
        dst: Reg::Rax,
        src: Rm::Reg(Reg::Rcx),
    }
}

/// `adox rax, rcx`
pub fn adox() -> Instr
    ensures { result ≡ spec.adox }
{
    Instr::Adox {
        dst: Reg::Rax,
        src: Rm::Reg(Reg::Rcx),
    }
}

/// `mulx r10, rax, rcx`
pub fn mulx() -> Instr
    ensures { result ≡ spec.mulx }
{
    Instr::Mulx {
        hi: Reg::R10,
        lo: Reg::Rax,
        src: Rm::Reg(Reg::Rcx),
    }
}

/// `mul rcx`
pub fn mul() -> Instr
    ensures { result ≡ spec.mul }
{
    Instr::Mul {
        src: Rm::Reg(Reg::Rcx),
    }
}

/// `imul rax, rcx`
pub fn imul() -> Instr
    ensures { result ≡ spec.imul }
{
    Instr::Imul {
        dst: Reg::Rax,
        src: Rm::Reg(Reg::Rcx),
    }
}

/// `not rax`
pub fn flip() -> Instr
    ensures { result ≡ spec.flip }
{
    Instr::Un {
        op: Un::Not,
        dst: Reg::Rax,
    }
}

/// `mov rax, rcx`
pub fn copy() -> Instr
    ensures { result ≡ spec.copy }
{
    Instr::Mov {
        dst: Reg::Rax,
        src: Rm::Reg(Reg::Rcx),
    }
}

/// The count of bits, from 1 to 63.
fn shift_count(bits: u8) -> ShiftCount
    requires low { 1 ≤ bits }
    requires high { bits ≤ 63 }
    ensures { result ≡ bits }
{
    ShiftCount::new(bits).unwrap()
}

/// `shl rax, count`
pub fn shl(count: u8) -> Instr
    requires low { 1 ≤ count }
    requires high { count ≤ 63 }
    ensures { result ≡ instrs.Shl Rax count }
{
    Instr::Shl {
        dst: Reg::Rax,
        by: shift_count(count),
    }
}

/// `shr rax, count`
pub fn shr(count: u8) -> Instr
    requires low { 1 ≤ count }
    requires high { count ≤ 63 }
    ensures { result ≡ instrs.Shr Rax count }
{
    Instr::Shr {
        dst: Reg::Rax,
        by: shift_count(count),
    }
}

/// `shrd rax, rcx, count`
pub fn shrd(count: u8) -> Instr
    requires low { 1 ≤ count }
    requires high { count ≤ 63 }
    ensures { result ≡ instrs.Shrd Rax Rcx count }
{
    Instr::Shrd {
        dst: Reg::Rax,
        src: Reg::Rcx,
        by: shift_count(count),
    }
}

/// `shlx dst, dst, count`
pub fn shlx(dst: Reg, count: Reg) -> Instr
    ensures { result ≡ spec.shlx dst count }
{
    Instr::Shlx {
        dst,
        src: Rm::Reg(dst),
        count,
    }
}

/// `shrx dst, dst, count`
pub fn shrx(dst: Reg, count: Reg) -> Instr
    ensures { result ≡ spec.shrx dst count }
{
    Instr::Shrx {
        dst,
        src: Rm::Reg(dst),
        count,
    }
}

/// A register as an index that is multiplied by 1.
fn index_of(reg: Reg) -> Option<Index>
    requires { is_index_reg reg ≡ true }
    ensures { result ≡ Some (record { reg = reg; scale = 1 }) }
{
    Some(Index {
        reg: IndexReg::new(reg)?,
        scale: Scale::new(1)?,
    })
}

/// `lea dst, [dst + src*1]`
pub fn lea(dst: Reg, src: Reg) -> Instr
    requires { is_index_reg src ≡ true }
    ensures { result ≡ spec.lea dst src }
{
    Instr::Lea {
        dst,
        mem: Mem {
            base: dst,
            index: index_of(src),
            disp: 0,
        },
    }
}

/// `mov dst, n`
pub fn set(dst: Reg, n: u64) -> Instr
    ensures { result ≡ spec.set dst n }
{
    Instr::MovImm { dst, imm: n }
}

/// `rcx` into `rax` where a condition holds.
pub fn cmov(cond: Cond) -> Instr
    ensures { result ≡ spec.cmov cond }
{
    Instr::Cmov {
        cond,
        dst: Reg::Rax,
        src: Rm::Reg(Reg::Rcx),
    }
}
