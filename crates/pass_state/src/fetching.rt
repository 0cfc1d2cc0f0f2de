//! Words that are found and brought to registers.

use crate::state::{Pass, frame_word};
use draft_lines::{Draft, Source};
use operand_keys::{Cell, Key, Word};
use register_spill::RegSet;
use std::alloc::AllocError;
use word_places::{NONE, both, only};
use x86_instr::Reg;

/// The word of an array that begins where a register says.
pub fn array_word(reg: Reg, word: u8) -> Source {
    Source::Memory(reg, i32::from(word) * 8)
}

/// The registers that a source reads, without `rsp`.
pub fn registers_in(source: Source) -> RegSet {
    match source {
        Source::Number(_) | Source::Memory(Reg::Rsp, _) => NONE,
        Source::Register(reg) | Source::Memory(reg, _) => only(reg),
    }
}

impl Pass<'_> {
    /// The place of a key's word in the frame.
    fn stored_word(&mut self, key: Key) -> Source {
        match self.slot(key) {
            Some(number) => frame_word(number),
            None => {
                self.lose();
                frame_word(0)
            }
        }
    }

    /// The register of the place of an array, which comes out of the frame where no register holds it.
    pub fn pointer(&mut self, key: Key, avoided: RegSet) -> Result<Reg, AllocError> {
        if let Some(reg) = self.held.register_of(key) {
            self.held.mark_used(reg);
            return Ok(reg);
        }
        let place = self.stored_word(key);
        let reg = self.free(avoided, false)?;
        self.emit(Draft::mov(reg, place))?;
        self.held.bind(key, reg);
        Ok(reg)
    }

    /// A word of an array, in memory.
    pub fn cell(&mut self, cell: Cell, avoided: RegSet) -> Result<Source, AllocError> {
        let reg = self.pointer(cell.pointer, avoided)?;
        Ok(array_word(reg, cell.word))
    }

    /// A key's word in memory: in an input array, or in the frame.
    pub fn memory(&mut self, key: Key, avoided: RegSet) -> Result<Source, AllocError> {
        match self.keys.word(key) {
            Word::Input(cell) => self.cell(cell, avoided),
            _ => Ok(self.stored_word(key)),
        }
    }

    /// A register that holds the key, none of the avoided ones where it has to come there.
    pub fn to_register(&mut self, key: Key, avoided: RegSet) -> Result<Reg, AllocError> {
        if let Some(reg) = self.held.register_of(key) {
            self.held.mark_used(reg);
            return Ok(reg);
        }
        if let Some(flag) = self.only_flag_of(key) {
            self.move_out(flag, avoided)?;
            return Ok(self.settled_register(key));
        }
        let closed = both(self.pinned, avoided);
        if self.held.is_spare(key) && !closed.has(Reg::Rdx) {
            self.held.bind(key, Reg::Rdx);
            return Ok(Reg::Rdx);
        }
        self.load(key, avoided)
    }

    /// The register of a key that has just come to one.
    fn settled_register(&mut self, key: Key) -> Reg {
        match self.held.register_of(key) {
            Some(reg) => reg,
            None => {
                self.lose();
                Reg::Rax
            }
        }
    }

    /// Brings the word of a key, which is a literal or in memory, to a register that holds it then.
    fn load(&mut self, key: Key, avoided: RegSet) -> Result<Reg, AllocError> {
        let place = match self.keys.literal(key) {
            Some(number) => Source::Number(number),
            None => self.memory(key, avoided)?,
        };
        let reg = self.free(both(avoided, registers_in(place)), false)?;
        self.emit(Draft::mov(reg, place))?;
        self.held.bind(key, reg);
        Ok(reg)
    }

    /// A copy of a key's word in a register that does not hold the key.
    pub fn fresh_copy(&mut self, key: Key) -> Result<Reg, AllocError> {
        let reg = self.to_register(key, NONE)?;
        self.pin_one(reg);
        self.copied(reg, NONE, false)
    }
}
