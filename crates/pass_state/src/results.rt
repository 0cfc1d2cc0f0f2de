//! What becomes of results, and of the words that an operation used for the last time.

use crate::state::Pass;
use draft_lines::{Draft, Form};
use operand_keys::{Cell, Key, NEVER, Shape, Word};
use std::alloc::AllocError;
use word_places::{FlagWord, NONE, StatusFlag};
use word_program::Target;
use x86_instr::Reg;

impl Pass<'_> {
    /// The registers of the words that die in this slot hold nothing any more. The places of outputs stay until the
    /// end of the slot, where its results are stored.
    pub fn release(&mut self, at_end: bool) {
        for key in self.keys.uses(self.schedule.op).iter() {
            self.release_key(*key, at_end);
        }
    }

    fn release_key(&mut self, key: Key, at_end: bool) {
        let Some(reg) = self.held.register_of(key) else {
            return;
        };
        let stays = !at_end && self.keys.word(key) == Word::OutputPlace;
        if !stays && self.schedule.after(key) >= NEVER && !self.schedule.is_factor(key) {
            self.held.unbind(reg);
        }
    }

    /// Stores a register in a word of an output.
    pub fn store(&mut self, cell: Cell, reg: Reg) -> Result<(), AllocError> {
        self.pin_one(reg);
        let place = self.cell(cell, NONE)?;
        self.emit(Draft::new(Form::Store, reg, place))?;
        Ok(())
    }

    fn store_result(&mut self, target: Target, reg: Reg) -> Result<(), AllocError> {
        match target {
            Target::Output { param, word } => {
                let pointer = self.keys.pointer(param);
                self.store(Cell { pointer, word }, reg)
            }
            Target::Value | Target::Unused => Ok(()),
        }
    }

    /// The result with this number of the operation is in a register: it is stored there where it goes to an output,
    /// and the register holds it where it is used later.
    pub fn finish(&mut self, shape: &Shape, number: usize, reg: Reg) -> Result<(), AllocError> {
        if self.held.holder(reg).is_some() {
            self.held.unbind(reg);
        }
        if reg == Reg::Rdx {
            self.held.spare = None;
        }
        self.store_result(shape.target(number), reg)?;
        let value = shape.first.saturating_add(number);
        let next = self.schedule.next(value);
        if self.keys.canonical(value) == value && next < NEVER && next > self.schedule.now {
            self.held.bind(value, reg);
        }
        Ok(())
    }

    /// The second result of the operation, a carry or borrow, is in a flag.
    pub fn finish_flag(&mut self, shape: &Shape, flag: StatusFlag) -> Result<(), AllocError> {
        let value = shape.first.saturating_add(1);
        let key = self.keys.canonical(value);
        if self.keys.word(key).is_literal() {
            let word = if self.keys.high(value) == 0 {
                FlagWord::Zero
            } else {
                FlagWord::Unknown
            };
            self.flags.set(flag, word);
            return self.store_number(shape, key);
        }
        if shape.is_stored(1) {
            let reg = self.free(NONE, false)?;
            self.write_flag(flag, reg)?;
            self.store_result(shape.target(1), reg)?;
            self.flags.set(flag, FlagWord::Unknown);
        } else if self.schedule.next(value) < NEVER {
            self.flags.set(flag, FlagWord::Holds(value));
        } else {
            self.flags.set(flag, FlagWord::Unknown);
        }
        Ok(())
    }

    /// Stores the second result, which is a number, where it goes to an output.
    fn store_number(&mut self, shape: &Shape, key: Key) -> Result<(), AllocError> {
        if !shape.is_stored(1) {
            return Ok(());
        }
        let reg = self.to_register(key, NONE)?;
        self.store_result(shape.target(1), reg)
    }
}
