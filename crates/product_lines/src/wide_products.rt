//! Products by `mul`: `rax` times the source, to `rdx` and `rax`.

use draft_lines::{Draft, Form, Source};
use op_order::Slot;
use operand_keys::{Key, Shape};
use pass_state::Pass;
use register_spill::RegSet;
use std::alloc::AllocError;
use word_places::{both, only};
use x86_instr::Reg;

/// The registers that `mul` overwrites.
fn result_set() -> RegSet {
    both(only(Reg::Rax), only(Reg::Rdx))
}

/// The word in a register goes to another one, none of those that `mul` overwrites.
fn move_away(pass: &mut Pass, key: Key, reg: Reg) -> Result<(), AllocError> {
    let other = pass.copied(reg, result_set(), false)?;
    pass.held.unbind(reg);
    pass.held.bind(key, other);
    Ok(())
}

/// Whether the word in a register may stay there until the `mul` reads it.
fn may_stay(pass: &Pass, key: Key, reg: Reg, x: Key, y: Key) -> bool {
    if reg == Reg::Rax {
        return key == x;
    }
    (key == x || key == y) && !pass.schedule.is_live(key)
}

/// Frees a register that `mul` overwrites.
fn clear_result(pass: &mut Pass, reg: Reg, x: Key, y: Key) -> Result<(), AllocError> {
    let Some(key) = pass.held.holder(reg) else {
        return Ok(());
    };
    if may_stay(pass, key, reg, x, y) {
        return Ok(());
    }
    pass.pin_key(x);
    pass.pin_key(y);
    let needed = pass.schedule.next(key) == pass.schedule.now;
    let free = pass.free_registers(result_set()).bits != 0;
    if needed || (free && !pass.keys.word(key).is_literal()) {
        return move_away(pass, key, reg);
    }
    pass.evict(reg)
}

/// Brings the first factor to `rax`, which `mul` may overwrite then.
fn fill_rax(pass: &mut Pass, x: Key) -> Result<(), AllocError> {
    match pass.held.register_of(x) {
        Some(Reg::Rax) if pass.schedule.is_live(x) => move_away(pass, x, Reg::Rax)?,
        Some(Reg::Rax) => pass.held.mark_used(Reg::Rax),
        Some(reg) => {
            pass.touch(Reg::Rax);
            pass.pin_one(Reg::Rax);
            pass.held.mark_used(reg);
            pass.emit(Draft::mov(Reg::Rax, Source::Register(reg)))?;
        }
        None => {
            pass.touch(Reg::Rax);
            let place = match pass.keys.literal(x) {
                Some(number) => Source::Number(number),
                None => pass.memory(x, result_set())?,
            };
            pass.emit(Draft::mov(Reg::Rax, place))?;
        }
    }
    pass.pin_one(Reg::Rax);
    Ok(())
}

/// The source of the `mul`: the other factor.
fn other_factor(pass: &mut Pass, x: Key, y: Key) -> Result<Source, AllocError> {
    if x == y {
        return Ok(Source::Register(Reg::Rax));
    }
    if pass.held.register_of(y).is_some() || pass.keys.word(y).is_literal() {
        return Ok(Source::Register(pass.to_register(y, result_set())?));
    }
    pass.memory(y, result_set())
}

/// The two factors, first the one that goes to `rax`.
fn factors(pass: &Pass, shape: &Shape, swap: bool) -> (Key, Key) {
    let x = shape.operand(0);
    let y = shape.operand(1);
    let in_rax = pass.held.register_of(x) == Some(Reg::Rax);
    if pass.held.register_of(y) == Some(Reg::Rax) || (!in_rax && swap) {
        return (y, x);
    }
    (x, y)
}

/// The lines of a product by `mul`.
pub fn push_wide_product(pass: &mut Pass, shape: &Shape, slot: Slot) -> Result<(), AllocError> {
    pass.settle_word(shape.operand(0))?;
    pass.settle_word(shape.operand(1))?;
    pass.rescue_both()?;
    let (x, y) = factors(pass, shape, slot.swap);
    clear_result(pass, Reg::Rax, x, y)?;
    clear_result(pass, Reg::Rdx, x, y)?;
    pass.claimed = both(pass.claimed, result_set());
    fill_rax(pass, x)?;
    let source = other_factor(pass, x, y)?;
    pass.pin_source(source);
    pass.release(false);
    pass.touch(Reg::Rdx);
    pass.touch(Reg::Rax);
    pass.emit_owned(Draft::new(Form::Mul, Reg::Rax, source))?;
    pass.pinned = result_set();
    pass.finish(shape, 0, Reg::Rax)?;
    pass.pinned = result_set();
    pass.finish(shape, 1, Reg::Rdx)
}
