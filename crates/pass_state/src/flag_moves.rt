//! Words that go to flags, and from them to registers.

use crate::state::Pass;
use draft_lines::{Draft, Form, Source};
use operand_keys::Key;
use register_spill::RegSet;
use std::alloc::AllocError;
use word_places::{FlagWord, NONE, StatusFlag};
use x86_instr::{Bin, Reg};

/// 2^63 - 2: with a bit added, `inc` leaves that bit in the overflow flag.
const BELOW_OVERFLOW: u64 = (1 << 63) - 2;

/// -1: added to a bit, it leaves that bit in the carry flag.
const MINUS_ONE: u64 = u64::MAX;

fn sum_with(flag: StatusFlag) -> Form {
    match flag {
        StatusFlag::Carry => Form::Adcx,
        StatusFlag::Overflow => Form::Adox,
    }
}

fn set_by(flag: StatusFlag) -> Form {
    match flag {
        StatusFlag::Carry => Form::SetCarry,
        StatusFlag::Overflow => Form::SetOverflow,
    }
}

impl Pass<'_> {
    /// The word in a flag goes to a register, where it is needed and nowhere else; the flag is 0 then.
    pub fn move_out(&mut self, flag: StatusFlag, avoided: RegSet) -> Result<(), AllocError> {
        let Some(key) = self.flags.key(flag) else {
            return Ok(());
        };
        let needed = self.schedule.is_live(key) || self.schedule.next(key) == self.schedule.now;
        if !needed || self.is_placed(key) {
            return Ok(());
        }
        let reg = self.free(avoided, false)?;
        self.emit(Draft::mov(reg, Source::Number(0)))?;
        self.emit(Draft::alone(sum_with(flag), reg))?;
        self.flags.set(flag, FlagWord::Zero);
        self.held.bind(key, reg);
        Ok(())
    }

    /// The word in a flag goes to a register too, where it is nowhere else, and stays in the flag.
    pub fn copy_out(&mut self, flag: StatusFlag) -> Result<(), AllocError> {
        let Some(key) = self.flags.key(flag) else {
            return Ok(());
        };
        if self.is_placed(key) {
            return Ok(());
        }
        let reg = self.free(NONE, false)?;
        self.write_flag(flag, reg)?;
        self.held.bind(key, reg);
        Ok(())
    }

    /// A flag goes to a register, as a word.
    pub fn write_flag(&mut self, flag: StatusFlag, reg: Reg) -> Result<(), AllocError> {
        self.emit(Draft::alone(set_by(flag), reg))?;
        self.emit(Draft::alone(Form::Movzx, reg))?;
        Ok(())
    }

    /// The word in a flag goes to a register before the flag is overwritten, where it is needed behind this slot.
    pub fn rescue(&mut self, flag: StatusFlag) -> Result<(), AllocError> {
        match self.flags.key(flag) {
            Some(key) if self.schedule.is_live(key) => self.move_out(flag, NONE),
            _ => Ok(()),
        }
    }

    /// The same of both flags.
    pub fn rescue_both(&mut self) -> Result<(), AllocError> {
        self.rescue(StatusFlag::Carry)?;
        self.rescue(StatusFlag::Overflow)
    }

    /// A word that is in a flag alone goes to a register.
    pub fn settle_word(&mut self, key: Key) -> Result<(), AllocError> {
        match self.only_flag_of(key) {
            Some(flag) => self.move_out(flag, NONE),
            None => Ok(()),
        }
    }

    /// A flag, whose word is not needed, becomes 0.
    pub fn clear_flag(&mut self, flag: StatusFlag) -> Result<(), AllocError> {
        if self.flags.word(flag) == FlagWord::Zero {
            return Ok(());
        }
        if !self.is_flag_needed(flag.other()) {
            self.emit(Draft::alone(Form::Test, Reg::Rax))?;
            self.flags.set_both_zero();
            return Ok(());
        }
        match flag {
            StatusFlag::Carry => {
                self.emit(Draft::alone(Form::ClearCarry, Reg::Rax))?;
            }
            StatusFlag::Overflow => {
                let reg = self.free(NONE, false)?;
                self.emit(Draft::mov(reg, Source::Number(BELOW_OVERFLOW)))?;
                self.emit(Draft::alone(Form::Inc, reg))?;
            }
        }
        self.flags.set(flag, FlagWord::Zero);
        Ok(())
    }

    /// A bit, which is in a register or a literal, goes to the carry flag. Its register is overwritten where it
    /// is not needed any more, and none of the operands.
    pub fn into_carry(&mut self, key: Key, operands: RegSet) -> Result<(), AllocError> {
        let reg = self.to_register(key, NONE)?;
        if self.schedule.is_live(key) || operands.has(reg) {
            return self.copy_into_carry(key, reg);
        }
        self.spend_into_carry(key, reg)
    }

    /// A bit goes to the carry flag, and its register is overwritten.
    pub fn spend_into_carry(&mut self, key: Key, reg: Reg) -> Result<(), AllocError> {
        self.held.mark_used(reg);
        self.emit(Draft::new(Form::Binary(Bin::Add), reg, Source::Number(MINUS_ONE)))?;
        self.held.unbind(reg);
        self.flags.set(StatusFlag::Carry, FlagWord::Holds(key));
        Ok(())
    }

    /// A bit goes to the carry flag, and its register stays: 0 is less than the bit exactly where that is 1.
    fn copy_into_carry(&mut self, key: Key, reg: Reg) -> Result<(), AllocError> {
        if let Some(zero) = self.held.register_of(self.keys.zero()) {
            self.held.mark_used(zero);
            self.emit(Draft::new(Form::Binary(Bin::Cmp), zero, Source::Register(reg)))?;
            self.flags.set(StatusFlag::Carry, FlagWord::Holds(key));
            return Ok(());
        }
        self.pin_one(reg);
        self.add_copy_to_carry(key, reg)
    }

    /// A bit goes to the carry flag by a copy of its register.
    pub fn add_copy_to_carry(&mut self, key: Key, reg: Reg) -> Result<(), AllocError> {
        let copy = self.free(NONE, false)?;
        self.emit(Draft::mov(copy, Source::Register(reg)))?;
        self.emit(Draft::new(Form::Binary(Bin::Add), copy, Source::Number(MINUS_ONE)))?;
        self.flags.set(StatusFlag::Carry, FlagWord::Holds(key));
        Ok(())
    }

    /// A bit, which is in a register or a literal, goes to the overflow flag.
    pub fn into_overflow(&mut self, key: Key) -> Result<(), AllocError> {
        let reg = self.to_register(key, NONE)?;
        self.pin_one(reg);
        let sum = self.free(NONE, false)?;
        self.emit(Draft::mov(sum, Source::Number(BELOW_OVERFLOW)))?;
        let lea = Draft::new(Form::Lea, sum, Source::Memory(sum, 0));
        self.emit(lea.with_second(reg))?;
        self.emit(Draft::alone(Form::Inc, sum))?;
        self.flags.set(StatusFlag::Overflow, FlagWord::Holds(key));
        Ok(())
    }
}
