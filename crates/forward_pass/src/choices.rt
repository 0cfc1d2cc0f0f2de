//! Choices between two words by a bit.

use draft_lines::{Draft, Form, Source};
use op_order::Slot;
use operand_keys::{Key, Shape};
use pass_state::{Choice, Pass};
use std::alloc::AllocError;
use word_places::{NONE, StatusFlag};
use x86_instr::Reg;

fn is_in_carry(pass: &Pass, condition: Key) -> bool {
    pass.flags.key(StatusFlag::Carry) == Some(condition)
}

/// The condition is in a register, and no flag holds a word that is needed.
fn settle_condition(pass: &mut Pass, condition: Key) -> Result<Reg, AllocError> {
    let reg = pass.to_register(condition, NONE)?;
    pass.pin_one(reg);
    Ok(reg)
}

/// The register of the condition before a `test`.
fn tested_register(pass: &mut Pass, condition: Key) -> Result<Reg, AllocError> {
    pass.rescue_both()?;
    pass.settle_word(condition)?;
    settle_condition(pass, condition)
}

/// The register of the condition before it goes to the carry flag.
fn carried_register(pass: &mut Pass, condition: Key) -> Result<Reg, AllocError> {
    pass.settle_word(condition)?;
    pass.rescue_both()?;
    settle_condition(pass, condition)
}

/// The two words: the destination, which has the one for 0, and the source.
fn choice_pair(pass: &mut Pass, shape: &Shape) -> Result<(Reg, Source), AllocError> {
    let clear = shape.operand(1);
    let set = shape.operand(2);
    pass.pin_key(set);
    let wish = pass.schedule.is_wanted(shape.first);
    let dst = pass.destination(clear, wish)?;
    pass.pin_one(dst);
    if clear == set {
        return Ok((dst, Source::Register(dst)));
    }
    let source = pass.source(set, NONE, Choice::NoNumber)?;
    pass.pin_source(source);
    Ok((dst, source))
}

/// The choice itself.
fn push_cmov(
    pass: &mut Pass,
    shape: &Shape,
    form: Form,
    dst: Reg,
    source: Source,
) -> Result<(), AllocError> {
    pass.release(false);
    let at = pass.emit_owned(Draft::new(form, dst, source))?;
    pass.note_user(at);
    pass.finish(shape, 0, dst)
}

/// A choice by a test of the condition.
fn push_by_test(pass: &mut Pass, shape: &Shape) -> Result<(), AllocError> {
    let reg = tested_register(pass, shape.operand(0))?;
    let (dst, source) = choice_pair(pass, shape)?;
    pass.emit_owned(Draft::alone(Form::Test, reg))?;
    pass.flags.set_both_zero();
    push_cmov(pass, shape, Form::CmovNotZero, dst, source)
}

/// The condition, which is in a register, goes to the carry flag. The flag is its home then, where its register is not
/// one of the two words.
fn carry_condition(
    pass: &mut Pass,
    condition: Key,
    reg: Reg,
    dst: Reg,
    source: Source,
) -> Result<(), AllocError> {
    let read = source == Source::Register(reg);
    if pass.held.register_of(condition) != Some(reg) || reg == dst || read {
        return pass.add_copy_to_carry(condition, reg);
    }
    pass.spend_into_carry(condition, reg)
}

/// A choice by the carry flag.
fn push_by_carry(pass: &mut Pass, shape: &Shape) -> Result<(), AllocError> {
    let condition = shape.operand(0);
    if is_in_carry(pass, condition) {
        let (dst, source) = choice_pair(pass, shape)?;
        return push_cmov(pass, shape, Form::CmovCarry, dst, source);
    }
    let reg = carried_register(pass, condition)?;
    let (dst, source) = choice_pair(pass, shape)?;
    carry_condition(pass, condition, reg, dst, source)?;
    push_cmov(pass, shape, Form::CmovCarry, dst, source)
}

/// The lines of a `cmovznz`.
pub fn push_choice(pass: &mut Pass, shape: &Shape, slot: Slot) -> Result<(), AllocError> {
    pass.settle_word(shape.operand(1))?;
    pass.settle_word(shape.operand(2))?;
    if slot.template == 0 {
        return push_by_test(pass, shape);
    }
    push_by_carry(pass, shape)
}
