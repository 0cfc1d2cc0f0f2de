ghost use Rattle.std.specs.Prelude.{◌≡◌};
ghost use Rattle.register_spill.specs.Calls.{is_open, is_pinned, some_open};

use x86_instr::{REGISTERS, Reg};

/// A set of registers: the one with the number n is in it where bit n is 1, bit 0 the least.
#[derive(Clone, Copy, Debug, PartialEq, Eq)]
pub struct RegSet {
    /// The bits.
    pub bits: u16,
}

impl RegSet {
    /// Whether the register is in the set.
    pub fn has(self, reg: Reg) -> bool
        ensures { result ≡ is_pinned self.bits reg }
    {
        (self.bits >> reg.number()) % 2 == 1
    }

    /// Whether some register other than `rsp` is not in the set.
    #[tactic(auto, unfolding(crate::specs::Calls::some_open))]
    pub fn leaves_one(self) -> bool
        ensures { result ≡ some_open self.bits }
    {
        REGISTERS.iter().any(|reg| is_open(self, *reg))
    }
}

/// Whether a value may be put into the register: it is not `rsp`, and not in the set.
pub fn is_open(pinned: RegSet, reg: Reg) -> bool
    ensures { result ≡ is_open pinned.bits reg }
{
    if reg.number() == Reg::Rsp.number() {
        return false;
    }
    !pinned.has(reg)
}
