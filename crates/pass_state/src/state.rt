ghost use Rattle.op_order.specs.Legal.{IsLegal};

use draft_lines::{Draft, DraftLines, Source, instruction_of};
use op_order::Plan;
use operand_keys::{Key, Keys, NextUses};
use register_spill::RegSet;
use std::alloc::{AllocError, Global};
use word_places::{
    CALLER_SAVED, FlagWord, FlagWords, HeldWords, NONE, Schedule, StatusFlag, both, only,
};
use word_program::Program;
use x86_instr::Reg;

/// A forward pass over the slots of a plan.
#[derive(Drop)]
pub struct Pass<'a> {
    /// The keys of the program.
    pub keys: &'a Keys,
    /// When the plan uses them.
    pub uses: &'a NextUses,
    /// The slot of the plan, and when it and later ones use each word.
    pub schedule: Schedule<'a>,
    /// The words in registers.
    pub held: HeldWords,
    /// The words in flags.
    pub flags: FlagWords,
    /// The lines so far.
    pub lines: DraftLines,
    /// The registers that the slot's line reads or writes: no other word may come there.
    pub pinned: RegSet,
    /// The registers of words that die in the slot, and are overwritten.
    pub claimed: RegSet,
    // The registers that the listing may use, and those that are to be saved.
    pub(crate) allowed: RegSet,
    pub(crate) saved: RegSet,
    // The slot of the frame of each key, which holds its word for ever.
    slots: Vec<Option<usize>>,
    frame_words: usize,
    // The last load of a source, and its register.
    pub(crate) fresh: Option<(usize, Reg)>,
    lost: bool,
}

/// The word with this number of the frame.
pub fn frame_word(number: usize) -> Source {
    let bytes = i32::try_from(number.saturating_mul(8)).unwrap_or(i32::MAX);
    Source::Memory(Reg::Rsp, bytes)
}

fn no_slots(alloc: Global, count: usize) -> Result<Vec<Option<usize>>, AllocError> {
    let mut list = Vec::with_capacity(alloc, count)?;
    for _ in 0..count {
        list.push(None)?;
    }
    Ok(list)
}

impl<'a> Pass<'a> {
    /// Before the first slot: no word is anywhere. The one error is want of memory.
    pub fn new(
        alloc: Global,
        program: &Program,
        plan: &Plan,
        keys: &'a Keys,
        uses: &'a NextUses,
    ) -> Result<Pass<'a>, AllocError>
        requires { IsLegal program.now plan.now.slots }
    {
        Ok(Pass {
            keys,
            uses,
            schedule: Schedule::new(alloc, keys, uses)?,
            held: HeldWords::new(alloc, program, plan, keys)?,
            flags: FlagWords::new(alloc, program)?,
            lines: DraftLines::new(alloc),
            pinned: NONE,
            claimed: NONE,
            allowed: CALLER_SAVED,
            saved: NONE,
            slots: no_slots(alloc, keys.count())?,
            frame_words: 0,
            fresh: None,
            lost: false,
        })
    }

    /// Lets the listing use these registers, which it has to preserve, too.
    pub fn allow(&mut self, preserved: RegSet) {
        self.allowed = both(CALLER_SAVED, preserved);
    }

    /// The registers that the listing has to save.
    pub fn saved(&self) -> RegSet {
        self.saved
    }

    /// How many words of the frame the listing uses for words of the program.
    pub fn frame_words(&self) -> usize {
        self.frame_words
    }

    /// Whether a word could not be found or placed, so that the listing is of no use.
    pub fn is_lost(&self) -> bool {
        self.lost
    }

    /// The listing is of no use.
    pub fn lose(&mut self) {
        self.lost = true;
    }

    /// The slot of the frame that holds a key's word.
    pub(crate) fn slot(&self, key: Key) -> Option<usize> {
        self.slots.get(key).copied().unwrap_or(None)
    }

    /// The slot of the frame of a key, which is a new one where it has none.
    pub(crate) fn make_slot(&mut self, key: Key) -> usize {
        if let Some(number) = self.slot(key) {
            return number;
        }
        let number = self.frame_words;
        if let Some(place) = self.slots.get_mut(key) {
            *place = Some(number);
        }
        self.frame_words = number.saturating_add(1);
        number
    }

    /// Goes to a slot of the plan, and its operation.
    pub fn enter_slot(&mut self, at: usize, op: usize) {
        self.schedule.enter_slot(at, op);
        self.claimed = NONE;
    }

    /// Adds registers to those that are pinned.
    pub fn pin(&mut self, set: RegSet) {
        self.pinned = both(self.pinned, set);
    }

    /// Pins a register.
    pub fn pin_one(&mut self, reg: Reg) {
        self.pin(only(reg));
    }

    /// Pins the register of a key, where one holds it.
    pub fn pin_key(&mut self, key: Key) {
        let registers = self.held.registers_of(key);
        self.pin(registers);
    }

    /// Whether a register holds the key for the last time.
    pub fn is_dying(&self, key: Key) -> bool {
        self.held.register_of(key).is_some() && !self.schedule.is_live(key)
    }

    /// Whether a key is in a register or in the frame.
    pub(crate) fn is_placed(&self, key: Key) -> bool {
        self.held.register_of(key).is_some() || self.slot(key).is_some()
    }

    /// The flag that a key is in, where it is nowhere else.
    pub fn only_flag_of(&self, key: Key) -> Option<StatusFlag> {
        if self.is_placed(key) {
            return None;
        }
        self.flags.flag_of(key)
    }

    /// Whether a flag holds a word that is still needed and is nowhere else.
    pub fn is_flag_needed(&self, flag: StatusFlag) -> bool {
        match self.flags.key(flag) {
            Some(key) => self.schedule.is_live(key) && !self.is_placed(key),
            None => false,
        }
    }

    /// Forgets the word in a flag, where no slot needs it any more.
    pub fn drop_dead_flag(&mut self, flag: StatusFlag) {
        if let Some(key) = self.flags.key(flag) {
            if !self.schedule.is_needed(key) {
                self.flags.set(flag, FlagWord::Unknown);
            }
        }
    }

    /// Puts a line that no operation owns at the end, and gives its number. The one error is want of memory.
    pub fn emit(&mut self, draft: Draft) -> Result<usize, AllocError> {
        if let Some(instr) = instruction_of(&draft) {
            self.flags.run(&instr);
        }
        self.lines.push(draft)
    }

    /// Puts a line that the slot's operation owns at the end, and gives its number. The one error is want of memory.
    pub fn emit_owned(&mut self, draft: Draft) -> Result<usize, AllocError> {
        let owner = u16::try_from(self.schedule.op).ok();
        self.emit(draft.owned_by(owner))
    }
}
