//! The destination and the source of a line.

use crate::fetching::registers_in;
use crate::state::Pass;
use draft_lines::{Draft, Source, immediate};
use operand_keys::{Key, NEVER};
use register_spill::RegSet;
use std::alloc::AllocError;
use word_places::{NONE, PRESERVED, Weight, and_not, both, only, shared};
use x86_instr::Reg;

/// What it is worth to have a source in a register, in tenths by the distance of its next use.
const LOAD_WORTH: usize = 30;

/// Which sources a line may have.
#[derive(Clone, Copy, Debug, PartialEq, Eq)]
pub enum Choice {
    /// A register, memory or a number of 32 bits.
    Any,
    /// A register or memory.
    NoNumber,
    /// The same, and the choice whether to load the word first is turned round.
    Turned,
}

impl Pass<'_> {
    /// A register that has the key's word and may be overwritten, `rdx` where that is wished and the word has to be
    /// copied.
    pub fn destination(&mut self, key: Key, wish: bool) -> Result<Reg, AllocError> {
        if let Some(reg) = self.held.register_of(key) {
            return self.destination_from(key, reg, wish);
        }
        if self.only_flag_of(key).is_some() {
            let reg = self.to_register(key, NONE)?;
            if !self.schedule.is_live(key) {
                return Ok(reg);
            }
            return self.copied(reg, only(reg), wish);
        }
        if self.held.is_spare(key) {
            self.held.spare = None;
            return Ok(Reg::Rdx);
        }
        self.load_destination(key, wish)
    }

    /// The same of a key in a register: that register where the key dies, else a copy.
    fn destination_from(&mut self, key: Key, reg: Reg, wish: bool) -> Result<Reg, AllocError> {
        self.held.mark_used(reg);
        if !self.schedule.is_live(key) {
            self.claimed = both(self.claimed, only(reg));
            return Ok(reg);
        }
        let pinned = self.pinned;
        self.pinned = and_not(pinned, only(reg));
        // Where the word itself is the cheapest to lose, it leaves its register, which is the destination.
        let copy = match self.free_register(only(reg), wish) {
            Some(copy) => copy,
            None => self.evict_for(NONE)?,
        };
        self.pinned = pinned;
        self.touch(copy);
        if copy != reg {
            self.emit(Draft::mov(copy, Source::Register(reg)))?;
        }
        Ok(copy)
    }

    /// The same of a key that is a literal or in memory. The register of its array's place may be overwritten.
    fn load_destination(&mut self, key: Key, wish: bool) -> Result<Reg, AllocError> {
        let place = match self.keys.literal(key) {
            Some(number) => Source::Number(number),
            None => self.memory(key, NONE)?,
        };
        let reg = self.free(NONE, wish)?;
        self.emit(Draft::mov(reg, place))?;
        Ok(reg)
    }

    /// What it costs to have a key's word in a register that may be overwritten, in tenths.
    pub fn destination_price(&self, key: Key) -> usize {
        if self.held.register_of(key).is_some() {
            return if self.schedule.is_live(key) { 10 } else { 0 };
        }
        if self.held.is_spare(key) {
            return 0;
        }
        if self.keys.word(key).is_literal() {
            10
        } else {
            50
        }
    }

    /// What it costs to have a key's word as a source, in tenths.
    pub fn source_price(&self, key: Key, choice: Choice) -> usize {
        if self.held.register_of(key).is_some() {
            return 0;
        }
        match self.keys.literal(key) {
            Some(number) => if choice == Choice::Any && immediate(number).is_some() {
                0
            } else {
                10
            },
            None => 40,
        }
    }

    /// Whether a word in memory is best loaded, since it is used again: where a register is free, or its next use is
    /// near.
    fn is_worth_loading(&self, key: Key, avoided: RegSet) -> bool {
        let later = self.schedule.later(key);
        if later >= NEVER {
            return false;
        }
        let free = self.free_registers(avoided);
        let cheap = and_not(self.cheap_registers(), only(Reg::Rdx));
        if shared(free, both(cheap, PRESERVED)).bits != 0 {
            return true;
        }
        let Some(victim) = self.victim(avoided) else {
            return false;
        };
        let worth = Weight {
            loss: LOAD_WORTH,
            distance: later.saturating_sub(self.schedule.now).saturating_add(1),
        };
        self.weight(victim).is_below(worth)
    }

    fn is_loaded_first(&self, key: Key, avoided: RegSet, choice: Choice) -> bool {
        let worth = self.is_worth_loading(key, avoided);
        if choice == Choice::Turned {
            return !worth && self.schedule.is_live(key);
        }
        worth
    }

    /// A key's word as a source.
    pub fn source(
        &mut self,
        key: Key,
        avoided: RegSet,
        choice: Choice,
    ) -> Result<Source, AllocError> {
        if let Some(reg) = self.held.register_of(key) {
            self.held.mark_used(reg);
            return Ok(Source::Register(reg));
        }
        if let Some(number) = self.keys.literal(key) {
            if choice == Choice::Any && immediate(number).is_some() {
                return Ok(Source::Number(number));
            }
            return Ok(Source::Register(self.to_register(key, avoided)?));
        }
        if self.only_flag_of(key).is_some() {
            return Ok(Source::Register(self.to_register(key, avoided)?));
        }
        if self.held.is_spare(key) && !avoided.has(Reg::Rdx) {
            return Ok(Source::Register(Reg::Rdx));
        }
        if self.is_loaded_first(key, avoided, choice) {
            return Ok(Source::Register(self.load_source(key, avoided)?));
        }
        self.memory(key, avoided)
    }

    /// Loads a source, and notes the line: it is taken back where the word leaves its register without another use.
    fn load_source(&mut self, key: Key, avoided: RegSet) -> Result<Reg, AllocError> {
        let reg = self.to_register(key, avoided)?;
        let at = self.lines.count().saturating_sub(1);
        let line = self.lines.line(at);
        if line.is_load() && line.dst == reg {
            self.held.mark_loaded(reg, at);
            self.fresh = Some((at, reg));
        }
        Ok(reg)
    }

    /// Notes that a line used the source that was loaded last.
    pub fn note_user(&mut self, at: usize) {
        let Some((load, reg)) = self.fresh else {
            return;
        };
        self.fresh = None;
        let line = self.lines.line(at);
        let reads = line.source == Source::Register(reg) && line.dst != reg;
        if self.held.loaded_at(reg) == Some(load) && reads {
            self.held.mark_user(reg, at);
        } else {
            self.held.mark_used(reg);
        }
    }

    /// Forgets which source was loaded last.
    pub fn forget_load(&mut self) {
        self.fresh = None;
    }

    /// Pins the registers of a source.
    pub fn pin_source(&mut self, source: Source) {
        self.pin(registers_in(source));
    }
}
