ghost use Rattle.std.specs.Prelude.{◌≡◌, ◌%◌, ◌^◌, not, option_map};
ghost use Rattle.x86_meaning.specs.Machine as spec;

use crate::cells::Cells;
use x86_instr::{Cond, Index, Mem, Reg, Rm, Src};

/// A state of the machine: the registers by number, the flags, of which None is undefined, and the memory.
#[derive(Drop)]
pub struct State {
    pub regs: [u64; 16],
    pub cf: Option<bool>,
    pub of: Option<bool>,
    pub zf: Option<bool>,
    pub cells: Cells,
}

impl State {
    /// The word in a register.
    pub fn reg(&self, reg: Reg) -> u64
        ensures { result ≡ spec.reg self.now reg }
    {
        self.regs[usize::from(reg.number())]
    }

    /// Writes a register.
    pub fn set_reg(&mut self, reg: Reg, word: u64)
        ensures { self.new ≡ spec.with_reg reg word self.old }
    {
        self.regs[usize::from(reg.number())] = word;
    }

    /// The address of a memory operand.
    pub fn effective_address(&self, mem: Mem) -> u64
        ensures { result ≡ spec.effective_address self.now mem }
    {
        self.reg(mem.base)
            .wrapping_add(self.index_word(mem.index))
            .wrapping_add_signed(i64::from(mem.disp))
    }

    /// The word of an index times its scale, modulo 2^64; 0 where there is none.
    fn index_word(&self, index: Option<Index>) -> u64
        ensures { result ≡ spec.index_word self.now index % 2 ^ 64 }
    {
        match index {
            None => 0,
            Some(index) => self
                .reg(index.reg.reg())
                .wrapping_mul(u64::from(index.scale.factor())),
        }
    }

    /// The word of a register or memory source, None exactly where its address is not in the memory.
    pub fn rm_word(&self, rm: Rm) -> Option<u64>
        ensures { result ≡ spec.rm_word self.now rm }
    {
        match rm {
            Rm::Reg(reg) => Some(self.reg(reg)),
            Rm::Mem(mem) => self.cells.get(self.effective_address(mem)),
        }
    }

    /// The word of a source, None exactly where its address is not in the memory.
    pub fn src_word(&self, src: Src) -> Option<u64>
        ensures { result ≡ spec.src_word self.now src }
    {
        match src {
            Src::Reg(reg) => Some(self.reg(reg)),
            Src::Mem(mem) => self.cells.get(self.effective_address(mem)),
            Src::Imm(number) => Some(i64::from(number).cast_unsigned()),
        }
    }

    /// Whether a condition holds, None exactly where its flag is undefined.
    pub fn condition_holds(&self, cond: Cond) -> Option<bool>
        ensures { result ≡ spec.condition_holds self.now cond }
    {
        match cond {
            Cond::O => self.of,
            Cond::No => negated(self.of),
            Cond::C => self.cf,
            Cond::Nc => negated(self.cf),
            Cond::Z => self.zf,
            Cond::Nz => negated(self.zf),
        }
    }
}

fn negated(flag: Option<bool>) -> Option<bool>
    ensures { result ≡ option_map (λ b. not b) flag }
{
    Some(!flag?)
}
