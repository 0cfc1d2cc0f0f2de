//! Products by `mulx`, which multiplies `rdx`.

use draft_lines::{Draft, Form, Source};
use op_order::Slot;
use operand_keys::{Key, NEVER, Shape};
use pass_state::{Choice, Pass};
use register_spill::RegSet;
use std::alloc::AllocError;
use word_places::{NONE, and_not, both, only, shared};
use word_program::{Kind, Target};
use x86_instr::Reg;

/// What the next `mulx` saves in tenths where its factor is in `rdx` already.
const NEXT_FACTOR_WORTH: usize = 8;

/// Which product is made, and how.
#[derive(Clone, Copy)]
pub struct Product {
    /// The operation.
    pub shape: Shape,
    /// The slot's marks.
    pub slot: Slot,
    /// Whether it is made again for a later operation: it has no owner, and stores nothing.
    pub again: bool,
    /// Registers that stay pinned.
    pub kept: RegSet,
}

/// Whether the next `mulx` has a key as a factor, and how often.
pub fn next_factor_count(pass: &Pass, key: Key) -> usize {
    let Some(slot) = pass.uses.slot(pass.schedule.next_mulx()) else {
        return 0;
    };
    let shape = pass.keys.shape(usize::from(slot.op));
    usize::from(shape.operand(0) == key).saturating_add(usize::from(shape.operand(1) == key))
}

/// What it costs to multiply `x`, in `rdx`, by `y`: in tenths, and so much more that it is none below 0.
fn factor_price(pass: &Pass, x: Key, y: Key) -> usize {
    let at_hand = pass.held.register_of(x).is_some() || pass.keys.word(x).is_literal();
    let first = if at_hand { 10 } else { 50 };
    let price = pass
        .source_price(y, Choice::NoNumber)
        .saturating_add(first + 2 * NEXT_FACTOR_WORTH);
    price.saturating_sub(next_factor_count(pass, x).saturating_mul(NEXT_FACTOR_WORTH))
}

/// The two factors, first the one that is multiplied in `rdx`.
fn factors(pass: &Pass, shape: &Shape, swap: bool) -> (Key, Key) {
    let x = shape.operand(0);
    let y = shape.operand(1);
    if pass.held.is_in_rdx(x) || x == y {
        return (x, y);
    }
    if pass.held.is_in_rdx(y) {
        return (y, x);
    }
    let straight = factor_price(pass, x, y);
    let exchanged = factor_price(pass, y, x);
    if exchanged < straight || (exchanged == straight && swap) {
        return (y, x);
    }
    (x, y)
}

/// The word in `rdx` goes to another register.
fn move_from_rdx(pass: &mut Pass, key: Key) -> Result<Reg, AllocError> {
    let reg = pass.copied(Reg::Rdx, only(Reg::Rdx), false)?;
    pass.held.unbind(Reg::Rdx);
    pass.held.bind(key, reg);
    Ok(reg)
}

/// The word in `rdx` leaves it, for another register where that costs less than its loss.
fn evict_from_rdx(pass: &mut Pass, key: Key) -> Result<(), AllocError> {
    let victim = pass.victim(only(Reg::Rdx));
    let pinned = pass.pinned;
    pass.pinned = and_not(pinned, only(Reg::Rdx));
    let moves = match victim {
        Some(reg) => pass.weight(reg).and_one().is_below(pass.weight(Reg::Rdx)),
        None => false,
    };
    if moves {
        move_from_rdx(pass, key)?;
    } else {
        pass.evict(Reg::Rdx)?;
    }
    pass.pinned = pinned;
    Ok(())
}

/// Frees `rdx` for a factor; the other factor stays in a register.
fn clear_rdx(pass: &mut Pass, other: Key) -> Result<(), AllocError> {
    let Some(key) = pass.held.holder(Reg::Rdx) else {
        return Ok(());
    };
    let needed = pass.schedule.next(key) == pass.schedule.now;
    let literal = pass.keys.word(key).is_literal();
    let free = pass.free_registers(only(Reg::Rdx)).bits != 0;
    if needed || (free && !literal) {
        let reg = move_from_rdx(pass, key)?;
        if key == other {
            pass.pin_one(reg);
        }
        return Ok(());
    }
    if literal {
        return pass.evict(Reg::Rdx);
    }
    evict_from_rdx(pass, key)
}

/// Copies a factor from a register to `rdx`, which holds it from now on where that register is not needed.
fn copy_to_rdx(pass: &mut Pass, x: Key, y: Key, reg: Reg) -> Result<(), AllocError> {
    pass.held.mark_used(reg);
    pass.emit(Draft::mov(Reg::Rdx, Source::Register(reg)))?;
    let later = pass.schedule.later(x);
    let is_next = later < NEVER && later == pass.schedule.next_mulx();
    if x != y && (is_next || !pass.schedule.is_live(x)) {
        pass.held.bind(x, Reg::Rdx);
    } else {
        pass.held.spare = Some(x);
    }
    Ok(())
}

/// Brings a factor to `rdx`.
fn fill_rdx(pass: &mut Pass, x: Key, y: Key) -> Result<(), AllocError> {
    pass.pin_key(x);
    clear_rdx(pass, y)?;
    pass.touch(Reg::Rdx);
    if let Some(reg) = pass.held.register_of(x) {
        return copy_to_rdx(pass, x, y, reg);
    }
    if let Some(number) = pass.keys.literal(x) {
        pass.emit(Draft::mov(Reg::Rdx, Source::Number(number)))?;
        if pass.schedule.later(x) < NEVER {
            pass.held.bind(x, Reg::Rdx);
        } else {
            pass.held.spare = Some(x);
        }
        return Ok(());
    }
    let place = pass.memory(x, only(Reg::Rdx))?;
    pass.emit(Draft::mov(Reg::Rdx, place))?;
    pass.held.bind(x, Reg::Rdx);
    Ok(())
}

/// The source of the product: the other factor.
fn other_factor(pass: &mut Pass, x: Key, y: Key, load_first: bool) -> Result<Source, AllocError> {
    if x == y {
        return Ok(Source::Register(Reg::Rdx));
    }
    let choice = if load_first {
        Choice::Turned
    } else {
        Choice::NoNumber
    };
    pass.source(y, only(Reg::Rdx), choice)
}

/// Whether the result with this number is needed from a register.
fn is_result_needed(pass: &Pass, product: &Product, number: usize) -> bool {
    match product.shape.target(number) {
        Target::Unused => false,
        Target::Output { .. } => !product.again,
        Target::Value => {
            let value = product.shape.first.saturating_add(number);
            pass.keys.canonical(value) == value && pass.schedule.next(value) < NEVER
        }
    }
}

/// The registers of the two results; one for both where the low word is not needed.
fn result_registers(
    pass: &mut Pass,
    product: &Product,
    low: bool,
    high: bool,
) -> Result<(Reg, Reg), AllocError> {
    let held = both(shared(pass.pinned, pass.held.occupied()), product.kept);
    pass.pinned = product.kept;
    let first = product.shape.first;
    let wish_high = high && pass.schedule.is_wanted(first.saturating_add(1));
    if !low {
        let reg = pass.free(held, wish_high)?;
        return Ok((reg, reg));
    }
    let wish_low = pass.schedule.is_wanted(first);
    let low_reg = pass.free(held, wish_low)?;
    let high_reg = pass.free(both(held, only(low_reg)), wish_high)?;
    Ok((low_reg, high_reg))
}

/// A result that was made again is in a register.
fn bind_again(pass: &mut Pass, value: Key, reg: Reg, at: usize) {
    pass.held.bind(value, reg);
    pass.held.mark_loaded(reg, at);
    pass.schedule.set_again(value, None);
}

/// A result goes where it is needed.
fn mark_product(pass: &mut Pass, value: Key, reg: Reg, at: usize) {
    if pass.held.holder(reg) == Some(value) {
        pass.held.mark_loaded(reg, at);
    }
}

/// The lines of a product by `mulx`.
pub fn push_product(pass: &mut Pass, product: &Product) -> Result<(), AllocError> {
    let shape = product.shape;
    pass.settle_word(shape.operand(0))?;
    pass.settle_word(shape.operand(1))?;
    let (x, y) = factors(pass, &shape, product.slot.swap);
    pass.pin_key(y);
    if !pass.held.is_in_rdx(x) {
        fill_rdx(pass, x, y)?;
    } else if pass.held.register_of(x) == Some(Reg::Rdx) {
        pass.held.mark_used(Reg::Rdx);
    }
    pass.pin_one(Reg::Rdx);
    let source = other_factor(pass, x, y, product.slot.load_first)?;
    pass.pin_source(source);
    if !product.again {
        pass.release(false);
    }
    push_mulx(pass, product, source)
}

/// The `mulx` itself, and what becomes of its results.
fn push_mulx(pass: &mut Pass, product: &Product, source: Source) -> Result<(), AllocError> {
    let low = is_result_needed(pass, product, 0);
    let wide = matches!(product.shape.kind, Kind::MulX);
    let high = wide && is_result_needed(pass, product, 1);
    let (low_reg, high_reg) = result_registers(pass, product, low, high)?;
    let draft = Draft::new(Form::Mulx, high_reg, source).with_second(low_reg);
    let at = if product.again {
        pass.emit(draft)?
    } else {
        pass.emit_owned(draft)?
    };
    pass.note_user(at);
    if low_reg == Reg::Rdx || high_reg == Reg::Rdx {
        pass.held.spare = None;
    }
    let results = Results {
        low: if low { Some(low_reg) } else { None },
        high: if high { Some(high_reg) } else { None },
        at,
    };
    if product.again {
        keep_again(pass, &product.shape, results);
        return Ok(());
    }
    finish_results(pass, &product.shape, results)
}

/// The registers of the results that are needed, and the line that made them.
#[derive(Clone, Copy)]
struct Results {
    low: Option<Reg>,
    high: Option<Reg>,
    at: usize,
}

fn keep_again(pass: &mut Pass, shape: &Shape, results: Results) {
    if let Some(reg) = results.low {
        bind_again(pass, shape.first, reg, results.at);
    }
    if let Some(reg) = results.high {
        bind_again(pass, shape.first.saturating_add(1), reg, results.at);
    }
}

fn finish_results(pass: &mut Pass, shape: &Shape, results: Results) -> Result<(), AllocError> {
    if let Some(low) = results.low {
        if let Some(high) = results.high {
            pass.pin_one(high);
        }
        pass.finish(shape, 0, low)?;
    }
    if let Some(high) = results.high {
        match results.low {
            Some(low) => pass.pin_one(low),
            None => pass.pinned = NONE,
        }
        pass.finish(shape, 1, high)?;
    }
    mark_results(pass, shape, results);
    Ok(())
}

fn mark_results(pass: &mut Pass, shape: &Shape, results: Results) {
    if let Some(reg) = results.low {
        mark_product(pass, shape.first, reg, results.at);
    }
    if let Some(reg) = results.high {
        mark_product(pass, shape.first.saturating_add(1), reg, results.at);
    }
}
