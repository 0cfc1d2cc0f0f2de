use draft_lines::Source;
use op_order::Slot;
use operand_keys::{Cell, Key, Shape};
use pass_state::{Choice, Pass, array_word};
use std::alloc::AllocError;
use word_places::{NONE, both, only};
use x86_instr::Reg;

/// The operands of a line that combines its destination with a source.
#[derive(Clone, Copy, Debug)]
pub struct Pair {
    /// The destination, which has the first word, and is overwritten.
    pub dst: Reg,
    /// The second word.
    pub source: Source,
}

/// The places of the two words that an operation combines, in the order that the slot asks for.
fn word_places(shape: &Shape, exchanged: bool) -> (usize, usize) {
    let last = shape.count.saturating_sub(1);
    let before = shape.count.saturating_sub(2);
    if exchanged {
        (last, before)
    } else {
        (before, last)
    }
}

/// The operands of a line that combines the last two words of an operation: a word of an input array that comes
/// second stays in memory, unless the slot asks to load it; else the cheaper order of the two.
pub fn pair_of(
    pass: &mut Pass,
    shape: &Shape,
    slot: Slot,
    choice: Choice,
) -> Result<Pair, AllocError> {
    let exchanged = shape.commutes() && slot.swap;
    let (first, second) = word_places(shape, exchanged);
    let wish = pass.schedule.is_wanted(shape.first);
    if let Some(cell) = shape.cell(second) {
        let a = shape.operand(first);
        let b = shape.operand(second);
        if slot.load_first {
            return loaded_pair(pass, a, b, wish);
        }
        return ruled_pair(pass, a, cell, wish);
    }
    let (first, second) = word_places(shape, false);
    let a = shape.operand(first);
    let b = shape.operand(second);
    if a == b {
        return twice(pass, a);
    }
    if shape.commutes() && is_exchange_cheaper(pass, a, b, wish, slot.swap, choice) {
        return any_pair(pass, b, a, wish, choice);
    }
    any_pair(pass, a, b, wish, choice)
}

fn loaded_pair(pass: &mut Pass, a: Key, b: Key, wish: bool) -> Result<Pair, AllocError> {
    let reg = pass.to_register(b, NONE)?;
    pass.pin_one(reg);
    let dst = if a == b {
        pass.fresh_copy(a)?
    } else {
        pass.destination(a, wish)?
    };
    pass.pin_one(dst);
    Ok(Pair {
        dst,
        source: Source::Register(reg),
    })
}

fn ruled_pair(pass: &mut Pass, a: Key, cell: Cell, wish: bool) -> Result<Pair, AllocError> {
    let reg = pass.pointer(cell.pointer, NONE)?;
    pass.pin_one(reg);
    let dst = pass.destination(a, wish)?;
    pass.pin_one(dst);
    Ok(Pair {
        dst,
        source: array_word(reg, cell.word),
    })
}

/// Both operands are one word.
fn twice(pass: &mut Pass, key: Key) -> Result<Pair, AllocError> {
    let dying = pass.is_dying(key);
    let reg = pass.to_register(key, NONE)?;
    pass.pin_one(reg);
    if dying {
        pass.claimed = both(pass.claimed, only(reg));
    }
    let dst = if pass.schedule.is_live(key) {
        pass.fresh_copy(key)?
    } else {
        reg
    };
    pass.pin_one(dst);
    Ok(Pair {
        dst,
        source: Source::Register(reg),
    })
}

/// Twice the price of an order, and one less where the result is wished in `rdx` and the destination is there; and
/// one more, so that it is none below 0.
fn order_price(pass: &Pass, dst: Key, src: Key, wish: bool, choice: Choice) -> usize {
    let price = pass
        .destination_price(dst)
        .saturating_add(pass.source_price(src, choice));
    let twice = price.saturating_mul(2).saturating_add(1);
    if wish && pass.held.register_of(dst) == Some(Reg::Rdx) {
        return twice.saturating_sub(1);
    }
    twice
}

/// Whether the exchanged order is cheaper. Where both cost the same, the slot says.
fn is_exchange_cheaper(
    pass: &Pass,
    a: Key,
    b: Key,
    wish: bool,
    swap: bool,
    choice: Choice,
) -> bool {
    let straight = order_price(pass, a, b, wish, choice);
    let exchanged = order_price(pass, b, a, wish, choice);
    exchanged < straight || (exchanged == straight && swap)
}

fn any_pair(
    pass: &mut Pass,
    a: Key,
    b: Key,
    wish: bool,
    choice: Choice,
) -> Result<Pair, AllocError> {
    pass.pin_key(b);
    let dst = pass.destination(a, wish)?;
    pass.pin_one(dst);
    let source = pass.source(b, NONE, choice)?;
    pass.pin_source(source);
    Ok(Pair { dst, source })
}
