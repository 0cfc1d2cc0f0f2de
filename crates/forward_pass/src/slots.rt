//! The pass over the slots of a plan.

use crate::arithmetic::push_arithmetic;
use crate::bitwise::push_bitwise;
use crate::choices::push_choice;
use crate::copies::push_copy;
use crate::shifts::{push_double_shift, push_not, push_shift};
use crate::sums::push_sum;
use op_order::Slot;
use operand_keys::{Key, NEVER, Shape};
use pass_state::Pass;
use product_lines::{Product, push_product, push_wide_product, remake_operands};
use std::alloc::AllocError;
use word_places::{NONE, StatusFlag};
use word_program::Kind;
use x86_instr::Reg;

/// How many lines a slot may have at most.
const MOST_SLOT_LINES: usize = 28;

/// The registers that pass the parameters, in order.
const PARAMETER_REGISTERS: [Reg; 6] = [Reg::Rdi, Reg::Rsi, Reg::Rdx, Reg::Rcx, Reg::R8, Reg::R9];

/// A product by `mulx` that the operation owns.
fn push_owned_product(pass: &mut Pass, shape: &Shape, slot: Slot) -> Result<(), AllocError> {
    let product = Product {
        shape: *shape,
        slot,
        again: false,
        kept: NONE,
    };
    push_product(pass, &product)
}

/// The lines of an operation by the template of its slot.
fn push_operation(pass: &mut Pass, shape: &Shape, slot: Slot) -> Result<(), AllocError> {
    match (shape.kind, slot.template) {
        (Kind::AddCarry | Kind::SubBorrow, _) => push_arithmetic(pass, shape, slot),
        (Kind::MulX, 0) => push_owned_product(pass, shape, slot),
        (Kind::MulX, _) => push_wide_product(pass, shape, slot),
        (Kind::Mul, 0) => push_bitwise(pass, shape, slot),
        (Kind::Mul, _) => push_owned_product(pass, shape, slot),
        (Kind::CMov, _) => push_choice(pass, shape, slot),
        (Kind::Add, _) => push_sum(pass, shape, slot),
        (Kind::Copy, _) => push_copy(pass, shape, slot),
        (Kind::Sub | Kind::And | Kind::Or | Kind::Xor, _) => push_bitwise(pass, shape, slot),
        (Kind::Not, _) => push_not(pass, shape),
        (Kind::Shl(count) | Kind::Shr(count), _) => push_shift(pass, shape, slot, count),
        (Kind::Shrd(count), _) => push_double_shift(pass, shape, slot, count),
    }
}

/// The lines of the slot with this number.
fn push_slot(pass: &mut Pass, at: usize, slot: Slot) -> Result<(), AllocError> {
    let before = pass.lines.count();
    let op = usize::from(slot.op);
    let shape = pass.keys.shape(op);
    pass.enter_slot(at, op);
    remake_operands(pass, &shape)?;
    push_operation(pass, &shape, slot)?;
    pass.release(true);
    pass.schedule.leave_slot();
    pass.drop_dead_flag(StatusFlag::Carry);
    pass.drop_dead_flag(StatusFlag::Overflow);
    if pass.lines.count().saturating_sub(before) > MOST_SLOT_LINES {
        pass.lose();
    }
    Ok(())
}

/// The words that are passed are in their registers.
pub fn enter_parameters(pass: &mut Pass) {
    for (key, reg) in pass.keys.entries().iter().zip(PARAMETER_REGISTERS.iter()) {
        enter_parameter(pass, *key, *reg);
    }
}

fn enter_parameter(pass: &mut Pass, key: Key, reg: Reg) {
    if pass.schedule.next(key) < NEVER {
        pass.held.bind(key, reg);
    }
}

/// The lines of all slots.
pub fn push_slots(pass: &mut Pass) -> Result<(), AllocError> {
    for (at, slot) in pass.uses.slots().iter().enumerate() {
        push_slot(pass, at, *slot)?;
    }
    Ok(())
}

/// The stores behind the last slot.
pub fn push_late_stores(pass: &mut Pass) -> Result<(), AllocError> {
    pass.schedule.now = pass.uses.slots().len();
    for store in pass.keys.late_stores() {
        pass.pinned = NONE;
        let reg = pass.to_register(store.key, NONE)?;
        pass.store(store.cell, reg)?;
    }
    Ok(())
}
