//! Copies of words.

use draft_lines::{Draft, Form, Source};
use op_order::Slot;
use operand_keys::{Cell, Key, Shape};
use pass_state::{Pass, array_word, registers_in};
use product_lines::next_factor_count;
use std::alloc::AllocError;
use word_places::NONE;
use word_program::Target;
use x86_instr::Reg;

/// A word goes to an output.
fn push_to_output(pass: &mut Pass, key: Key, cell: Cell) -> Result<(), AllocError> {
    pass.settle_word(key)?;
    let reg = pass.to_register(key, NONE)?;
    pass.pin_one(reg);
    let pointer = pass.pointer(cell.pointer, NONE)?;
    let place = array_word(pointer, cell.word);
    pass.emit_owned(Draft::new(Form::Store, reg, place))?;
    Ok(())
}

/// A line that does nothing, since the copy has the key of the word.
fn push_idle(pass: &mut Pass, reg: Reg) -> Result<(), AllocError> {
    pass.emit_owned(Draft::mov(reg, Source::Register(reg)))?;
    Ok(())
}

/// A copy of a word in a register does nothing, or brings it to `rdx` for the next `mulx`.
fn push_held(pass: &mut Pass, key: Key, reg: Reg) -> Result<(), AllocError> {
    let rdx_free = pass.held.holder(Reg::Rdx).is_none() && pass.held.spare != Some(key);
    if !rdx_free || next_factor_count(pass, key) == 0 {
        return push_idle(pass, reg);
    }
    pass.held.mark_used(reg);
    pass.touch(Reg::Rdx);
    pass.emit_owned(Draft::mov(Reg::Rdx, Source::Register(reg)))?;
    pass.held.spare = Some(key);
    Ok(())
}

/// Loads a word, which is a literal or in memory.
fn push_load(pass: &mut Pass, key: Key) -> Result<(), AllocError> {
    let wish = next_factor_count(pass, key) > 0;
    let place = match pass.keys.literal(key) {
        Some(number) => Source::Number(number),
        None => pass.memory(key, NONE)?,
    };
    let reg = pass.free(registers_in(place), wish)?;
    let at = pass.emit_owned(Draft::mov(reg, place))?;
    pass.held.bind(key, reg);
    pass.held.mark_loaded(reg, at);
    Ok(())
}

/// Whether the word is not needed in a register, or is at hand.
fn is_at_hand(pass: &Pass, key: Key) -> bool {
    !pass.schedule.is_live(key) || pass.only_flag_of(key).is_some() || pass.held.is_spare(key)
}

/// A copy to a value, which has the key of the word.
fn push_alias(pass: &mut Pass, key: Key, slot: Slot) -> Result<(), AllocError> {
    if let Some(reg) = pass.held.register_of(key) {
        return push_held(pass, key, reg);
    }
    // Before the first line that does something, a load may come later: the line goes to the head of the listing.
    if is_at_hand(pass, key) || slot.load_first != pass.lines.may_lead() {
        return push_idle(pass, Reg::Rax);
    }
    push_load(pass, key)
}

/// A copy with a key of its own: a word that is stored behind the last slot must not be read from an input then.
fn push_own(pass: &mut Pass, shape: &Shape) -> Result<(), AllocError> {
    let key = shape.operand(0);
    pass.settle_word(key)?;
    let dying = pass.is_dying(key);
    let reg = pass.to_register(key, NONE)?;
    pass.pin_one(reg);
    let dst = if dying { reg } else { pass.free(NONE, false)? };
    pass.release(false);
    pass.emit_owned(Draft::mov(dst, Source::Register(reg)))?;
    pass.finish(shape, 0, dst)
}

/// The lines of a `=`.
pub fn push_copy(pass: &mut Pass, shape: &Shape, slot: Slot) -> Result<(), AllocError> {
    let key = shape.operand(0);
    if let Target::Output { param, word } = shape.target(0) {
        let pointer = pass.keys.pointer(param);
        return push_to_output(pass, key, Cell { pointer, word });
    }
    if pass.keys.canonical(shape.first) == shape.first {
        return push_own(pass, shape);
    }
    push_alias(pass, key, slot)
}
