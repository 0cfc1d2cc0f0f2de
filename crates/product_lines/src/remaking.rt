//! Products that are made again at the first use of one of their words.

use crate::products::{Product, push_product};
use op_order::Slot;
use operand_keys::{Key, Shape};
use pass_state::Pass;
use register_spill::RegSet;
use std::alloc::AllocError;
use word_places::{NONE, and_not, both, only};
use x86_instr::Reg;

/// The registers of the operands of an operation.
fn operand_registers(pass: &Pass, shape: &Shape) -> RegSet {
    let mut set = NONE;
    for key in shape.operands.iter().take(shape.count) {
        set = both(set, pass.held.registers_of(*key));
    }
    set
}

fn slot_of(op: usize) -> Slot {
    Slot {
        op: u16::try_from(op).unwrap_or(0),
        template: 0,
        swap: false,
        load_first: false,
    }
}

/// Makes the product of an operation again, for another operation, whose operands stay in their registers: but what
/// that needs in `rdx` leaves it.
fn make_again(pass: &mut Pass, op: usize, user: &Shape) -> Result<(), AllocError> {
    let kept = and_not(operand_registers(pass, user), only(Reg::Rdx));
    pass.pinned = kept;
    let shape = pass.keys.shape(op);
    let product = Product {
        shape,
        slot: slot_of(op),
        again: true,
        kept,
    };
    push_product(pass, &product)?;
    pass.drop_factor(shape.operand(0));
    pass.drop_factor(shape.operand(1));
    Ok(())
}

fn remake_operand(pass: &mut Pass, key: Key, user: &Shape) -> Result<(), AllocError> {
    match pass.schedule.again(key) {
        Some(op) => make_again(pass, op, user),
        None => Ok(()),
    }
}

/// Makes the products again that the operation needs. Nothing is pinned then.
pub fn remake_operands(pass: &mut Pass, shape: &Shape) -> Result<(), AllocError> {
    for key in shape.operands.iter().take(shape.count) {
        remake_operand(pass, *key, shape)?;
    }
    pass.pinned = NONE;
    Ok(())
}
