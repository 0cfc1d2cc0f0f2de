//! The register that a word is put into.

use crate::state::Pass;
use draft_lines::{Draft, Source};
use operand_keys::NEVER;
use register_spill::RegSet;
use std::alloc::AllocError;
use word_places::{CALLER_SAVED, PRESERVED, and_not, both, lowest, only, shared};
use x86_instr::Reg;

impl Pass<'_> {
    /// The allowed registers that hold nothing, are not pinned, and not among the avoided.
    pub fn free_registers(&self, avoided: RegSet) -> RegSet {
        let taken = both(self.held.occupied(), both(self.pinned, avoided));
        and_not(self.allowed, taken)
    }

    /// The allowed registers that hold a key, are not pinned, and not among the avoided.
    pub(crate) fn held_registers(&self, avoided: RegSet) -> RegSet {
        let held = shared(self.held.occupied(), self.allowed);
        and_not(held, both(self.pinned, avoided))
    }

    /// The registers that may be overwritten at no cost: those that the caller saves, and those that are saved anyway.
    pub(crate) fn cheap_registers(&self) -> RegSet {
        both(CALLER_SAVED, self.saved)
    }

    /// A free register: `rdx` where that is wished, else one that may be overwritten at no cost, `rdx` the last of them
    /// and only where no `mulx` follows, else one that is to be saved then.
    pub(crate) fn free_register(&self, avoided: RegSet, wish: bool) -> Option<Reg> {
        let free = self.free_registers(avoided);
        if wish && free.has(Reg::Rdx) {
            return Some(Reg::Rdx);
        }
        let unsaved = and_not(shared(free, CALLER_SAVED), only(Reg::Rdx));
        if let Some(reg) = lowest(unsaved) {
            return Some(reg);
        }
        if let Some(reg) = lowest(shared(free, self.saved)) {
            return Some(reg);
        }
        if free.has(Reg::Rdx) && self.schedule.next_mulx() >= NEVER {
            return Some(Reg::Rdx);
        }
        if let Some(reg) = lowest(shared(free, PRESERVED)) {
            return Some(reg);
        }
        lowest(free)
    }

    /// Notes that a register is overwritten.
    pub fn touch(&mut self, reg: Reg) {
        self.saved = both(self.saved, shared(only(reg), PRESERVED));
        self.held.overwrite(reg);
    }

    /// A register that may be overwritten, none of the pinned and avoided ones: a free one, `rdx` where that is wished,
    /// else that of the word whose loss costs least, which leaves it.
    pub fn free(&mut self, avoided: RegSet, wish: bool) -> Result<Reg, AllocError> {
        let reg = match self.free_register(avoided, wish) {
            Some(reg) => reg,
            None => self.evict_for(avoided)?,
        };
        self.touch(reg);
        Ok(reg)
    }

    /// The register of the word whose loss costs least, which leaves it.
    pub(crate) fn evict_for(&mut self, avoided: RegSet) -> Result<Reg, AllocError> {
        let Some(reg) = self.victim(avoided) else {
            self.lose();
            return Ok(Reg::Rax);
        };
        self.evict(reg)?;
        Ok(reg)
    }

    /// A copy of a register in another one.
    pub fn copied(&mut self, reg: Reg, avoided: RegSet, wish: bool) -> Result<Reg, AllocError> {
        let copy = self.free(avoided, wish)?;
        self.emit(Draft::mov(copy, Source::Register(reg)))?;
        Ok(copy)
    }
}
