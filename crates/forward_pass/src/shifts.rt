//! Shifts, and `not`.

use draft_lines::{Draft, Form, Source};
use op_order::Slot;
use operand_keys::{Key, Shape};
use pass_state::{Choice, Pass};
use std::alloc::AllocError;
use word_places::{NONE, both, only, shared};
use word_program::Kind;
use x86_instr::Reg;

/// The lines of a `not`.
pub fn push_not(pass: &mut Pass, shape: &Shape) -> Result<(), AllocError> {
    pass.settle_word(shape.operand(0))?;
    let wish = pass.schedule.is_wanted(shape.first);
    let dst = pass.destination(shape.operand(0), wish)?;
    pass.release(false);
    pass.emit_owned(Draft::alone(Form::Not, dst))?;
    pass.finish(shape, 0, dst)
}

/// A shift by a number of bits.
fn push_by_number(pass: &mut Pass, shape: &Shape, form: Form, count: u8) -> Result<(), AllocError> {
    pass.rescue_both()?;
    let wish = pass.schedule.is_wanted(shape.first);
    let dst = pass.destination(shape.operand(0), wish)?;
    pass.release(false);
    pass.emit_owned(Draft::alone(form, dst).by(count))?;
    pass.finish(shape, 0, dst)
}

/// A shift by a register.
fn push_by_register(pass: &mut Pass, shape: &Shape, form: Form) -> Result<(), AllocError> {
    pass.pin_key(shape.operand(0));
    let [by, _] = shape.shifts;
    let count = pass.to_register(by, NONE)?;
    pass.pin_one(count);
    let source = pass.source(shape.operand(0), NONE, Choice::NoNumber)?;
    pass.pin_source(source);
    pass.release(false);
    let held = shared(pass.pinned, pass.held.occupied());
    pass.pinned = NONE;
    let wish = pass.schedule.is_wanted(shape.first);
    let dst = pass.free(held, wish)?;
    let at = pass.emit_owned(Draft::new(form, dst, source).with_second(count))?;
    pass.note_user(at);
    pass.finish(shape, 0, dst)
}

/// The lines of a `<<` or `>>` by so many bits.
pub fn push_shift(pass: &mut Pass, shape: &Shape, slot: Slot, count: u8) -> Result<(), AllocError> {
    pass.settle_word(shape.operand(0))?;
    let left = matches!(shape.kind, Kind::Shl(_));
    if slot.template == 0 {
        let form = if left { Form::Shl } else { Form::Shr };
        return push_by_number(pass, shape, form, count);
    }
    push_by_register(pass, shape, if left { Form::Shlx } else { Form::Shrx })
}

/// The destination and the other register of a double shift.
fn double_pair(pass: &mut Pass, shape: &Shape) -> Result<(Reg, Reg), AllocError> {
    let low = shape.operand(0);
    let high = shape.operand(1);
    if low == high {
        let reg = pass.to_register(low, NONE)?;
        pass.pin_one(reg);
        let dst = if pass.schedule.is_live(low) {
            pass.fresh_copy(low)?
        } else {
            reg
        };
        return Ok((dst, reg));
    }
    pass.pin_key(high);
    let wish = pass.schedule.is_wanted(shape.first);
    let dst = pass.destination(low, wish)?;
    pass.pin_one(dst);
    let reg = pass.to_register(high, NONE)?;
    Ok((dst, reg))
}

/// A double shift by `shrd`.
fn push_shrd(pass: &mut Pass, shape: &Shape, count: u8) -> Result<(), AllocError> {
    pass.rescue_both()?;
    let (dst, reg) = double_pair(pass, shape)?;
    pass.release(false);
    pass.emit_owned(Draft::new(Form::Shrd, dst, Source::Register(reg)).by(count))?;
    pass.finish(shape, 0, dst)
}

/// A count and a word that is shifted by it.
#[derive(Clone, Copy)]
struct Shifted {
    count: Reg,
    source: Source,
}

/// Brings a count to a register, and a word where a shift reads it. Both stay pinned.
fn shift_operands(pass: &mut Pass, by: Key, key: Key) -> Result<Shifted, AllocError> {
    let count = pass.to_register(by, NONE)?;
    pass.pin_one(count);
    let source = pass.source(key, NONE, Choice::NoNumber)?;
    pass.pin_source(source);
    pass.forget_load();
    if let Source::Register(reg) = source {
        pass.held.mark_used(reg);
    }
    Ok(Shifted { count, source })
}

/// The register of a source, where its key dies there.
fn dying_register(pass: &Pass, key: Key, source: Source) -> Option<Reg> {
    match source {
        Source::Register(reg) if pass.is_dying(key) => Some(reg),
        _ => None,
    }
}

fn register_or_free(pass: &mut Pass, reg: Option<Reg>) -> Result<Reg, AllocError> {
    let reg = match reg {
        Some(reg) => reg,
        None => pass.free(NONE, false)?,
    };
    pass.pin_one(reg);
    Ok(reg)
}

/// A double shift by two shifts and a sum of what they leave.
fn push_double_by_registers(pass: &mut Pass, shape: &Shape) -> Result<(), AllocError> {
    let low = shape.operand(0);
    let high = shape.operand(1);
    let [by, rest] = shape.shifts;
    pass.pin_key(low);
    pass.pin_key(high);
    let first = shift_operands(pass, by, low)?;
    let second = shift_operands(pass, rest, high)?;
    let own = dying_register(pass, low, first.source);
    let own = own.filter(|reg| low != high && *reg != second.count);
    let dst = register_or_free(pass, own)?;
    pass.claimed = both(pass.claimed, only(dst));
    let right = Draft::new(Form::Shrx, dst, first.source);
    pass.emit_owned(right.with_second(first.count))?;
    let own = dying_register(pass, high, second.source);
    let other = register_or_free(pass, own)?;
    let left = Draft::new(Form::Shlx, other, second.source);
    pass.emit_owned(left.with_second(second.count))?;
    pass.release(false);
    let sum = Draft::new(Form::Lea, dst, Source::Memory(dst, 0));
    pass.emit_owned(sum.with_second(other))?;
    pass.pinned = NONE;
    pass.finish(shape, 0, dst)
}

/// The lines of a `>>` of two words by so many bits.
pub fn push_double_shift(
    pass: &mut Pass,
    shape: &Shape,
    slot: Slot,
    count: u8,
) -> Result<(), AllocError> {
    pass.settle_word(shape.operand(0))?;
    pass.settle_word(shape.operand(1))?;
    if slot.template == 0 {
        return push_shrd(pass, shape, count);
    }
    push_double_by_registers(pass, shape)
}
