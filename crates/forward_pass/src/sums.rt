//! Sums without carries, and the bits in flags that they take.

use crate::pairs::pair_of;
use draft_lines::{Draft, Form, Source, immediate};
use op_order::Slot;
use operand_keys::{Key, Shape};
use pass_state::{Choice, Pass};
use std::alloc::AllocError;
use word_places::{FlagWord, NONE, StatusFlag, shared};
use x86_instr::{Bin, Reg};

/// The number of an operand of `lea`, where it is one of 32 bits that no register holds.
fn displacement(pass: &Pass, key: Key) -> Option<i32> {
    let number = pass.keys.literal(key)?;
    if pass.held.register_of(key).is_some() {
        return None;
    }
    immediate(number)
}

/// The register that a `lea` writes: `rdx` where that is wished, else one of its operands that dies, else another one.
fn lea_register(
    pass: &mut Pass,
    first: Reg,
    second: Option<Reg>,
    wish: bool,
    swap: bool,
) -> Result<Reg, AllocError> {
    let avoided = shared(pass.pinned, pass.held.occupied());
    pass.pinned = NONE;
    if wish && pass.held.holder(Reg::Rdx).is_none() {
        return Ok(Reg::Rdx);
    }
    let dying = second.filter(|reg| pass.held.holder(*reg).is_none());
    if pass.held.holder(first).is_none() && !(swap && dying.is_some()) {
        return Ok(first);
    }
    match dying {
        Some(reg) => Ok(reg),
        None => pass.free(avoided, wish),
    }
}

/// The lines of a sum by `lea`.
pub fn push_lea(
    pass: &mut Pass,
    shape: &Shape,
    a: Key,
    b: Key,
    slot: Slot,
) -> Result<(), AllocError> {
    pass.settle_word(a)?;
    pass.settle_word(b)?;
    if pass.keys.word(a).is_literal() {
        return push_lea_of(pass, shape, b, a, slot);
    }
    push_lea_of(pass, shape, a, b, slot)
}

fn push_lea_of(
    pass: &mut Pass,
    shape: &Shape,
    a: Key,
    b: Key,
    slot: Slot,
) -> Result<(), AllocError> {
    pass.pin_key(a);
    pass.pin_key(b);
    let first = pass.to_register(a, NONE)?;
    pass.pin_one(first);
    let number = displacement(pass, b);
    let mut second = None;
    if number.is_none() {
        let reg = pass.to_register(b, NONE)?;
        pass.pin_one(reg);
        second = Some(reg);
    }
    pass.release(false);
    let wish = pass.schedule.is_wanted(shape.first);
    let dst = lea_register(pass, first, second, wish, slot.swap)?;
    pass.touch(dst);
    let place = Source::Memory(first, number.unwrap_or(0));
    let mut lea = Draft::new(Form::Lea, dst, place);
    lea.second = second;
    pass.emit_owned(lea)?;
    pass.finish(shape, 0, dst)
}

/// Two bits that are in flags alone, and die.
fn are_dying_bits(pass: &Pass, a: Key, b: Key) -> bool {
    let in_flags = pass.only_flag_of(a).is_some() && pass.only_flag_of(b).is_some();
    in_flags && a != b && !pass.schedule.is_live(a) && !pass.schedule.is_live(b)
}

/// The sum of the bits in both flags, onto a register with 0.
fn push_both_bits(pass: &mut Pass, shape: &Shape, zero: Reg) -> Result<(), AllocError> {
    pass.pin_one(zero);
    pass.held.mark_used(zero);
    let wish = pass.schedule.is_wanted(shape.first);
    let dst = pass.free(NONE, wish)?;
    pass.emit_owned(Draft::new(Form::Lea, dst, Source::Memory(zero, 0)))?;
    pass.emit(Draft::new(Form::Adcx, dst, Source::Register(zero)))?;
    pass.emit(Draft::new(Form::Adox, dst, Source::Register(zero)))?;
    pass.flags.set_both_zero();
    pass.release(false);
    pass.finish(shape, 0, dst)
}

/// A sum of a word and a bit that is in a flag alone, and dies.
#[derive(Clone, Copy)]
struct BitSum {
    word: Key,
    flag: StatusFlag,
}

fn bit_sum(pass: &Pass, a: Key, b: Key) -> Option<BitSum> {
    if a == b {
        return None;
    }
    match (pass.only_flag_of(a), pass.only_flag_of(b)) {
        (Some(flag), None) if !pass.schedule.is_live(a) => Some(BitSum { word: b, flag }),
        (None, Some(flag)) if !pass.schedule.is_live(b) => Some(BitSum { word: a, flag }),
        _ => None,
    }
}

/// The register of the word, which the bit is added to: where `lea` is asked for, its line brings it there.
fn bit_sum_register(
    pass: &mut Pass,
    shape: &Shape,
    word: Key,
    by_lea: bool,
) -> Result<Reg, AllocError> {
    let wish = pass.schedule.is_wanted(shape.first);
    if by_lea && pass.held.register_of(word).is_some() && pass.schedule.is_live(word) {
        let reg = pass.to_register(word, NONE)?;
        pass.pin_one(reg);
        let dst = pass.free(NONE, wish)?;
        pass.emit_owned(Draft::new(Form::Lea, dst, Source::Memory(reg, 0)))?;
        return Ok(dst);
    }
    let dst = pass.destination(word, wish)?;
    if by_lea {
        pass.emit_owned(Draft::new(Form::Lea, dst, Source::Memory(dst, 0)))?;
    }
    Ok(dst)
}

/// Adds the bit in a flag to a register.
fn add_bit(pass: &mut Pass, flag: StatusFlag, dst: Reg, keep: bool) -> Result<(), AllocError> {
    if flag == StatusFlag::Carry && !keep {
        pass.emit(Draft::new(Form::Binary(Bin::Adc), dst, Source::Number(0)))?;
        return Ok(());
    }
    let zero = pass.to_register(pass.keys.zero(), NONE)?;
    let form = match flag {
        StatusFlag::Carry => Form::Adcx,
        StatusFlag::Overflow => Form::Adox,
    };
    pass.emit(Draft::new(form, dst, Source::Register(zero)))?;
    Ok(())
}

/// The sum of a word and a bit in a flag.
fn push_bit_sum(pass: &mut Pass, shape: &Shape, slot: Slot, sum: BitSum) -> Result<(), AllocError> {
    let by_lea = slot.template == 1;
    pass.pin_key(sum.word);
    if !by_lea {
        pass.rescue(sum.flag.other())?;
    }
    let keep = pass.is_flag_needed(sum.flag.other());
    let dst = bit_sum_register(pass, shape, sum.word, by_lea)?;
    pass.pin_one(dst);
    add_bit(pass, sum.flag, dst, keep)?;
    let fits = pass.keys.high(sum.word) < u64::MAX;
    pass.flags.set(
        sum.flag,
        if fits {
            FlagWord::Zero
        } else {
            FlagWord::Unknown
        },
    );
    if !by_lea {
        pass.emit_owned(Draft::new(Form::Binary(Bin::Add), dst, Source::Number(0)))?;
        pass.flags.set(StatusFlag::Carry, FlagWord::Zero);
    }
    pass.release(false);
    pass.finish(shape, 0, dst)
}

/// The lines of a sum by `add`.
fn push_add(pass: &mut Pass, shape: &Shape, slot: Slot) -> Result<(), AllocError> {
    let a = shape.operand(0);
    let b = shape.operand(1);
    pass.settle_word(a)?;
    pass.settle_word(b)?;
    pass.rescue_both()?;
    let pair = pair_of(pass, shape, slot, Choice::Any)?;
    pass.release(false);
    let at = pass.emit_owned(Draft::new(Form::Binary(Bin::Add), pair.dst, pair.source))?;
    pass.note_user(at);
    if pass.keys.high(a).checked_add(pass.keys.high(b)).is_some() {
        pass.flags.set(StatusFlag::Carry, FlagWord::Zero);
    }
    pass.finish(shape, 0, pair.dst)
}

/// The lines of a `+`.
pub fn push_sum(pass: &mut Pass, shape: &Shape, slot: Slot) -> Result<(), AllocError> {
    let a = shape.operand(0);
    let b = shape.operand(1);
    if are_dying_bits(pass, a, b) {
        if let Some(zero) = pass.held.register_of(pass.keys.zero()) {
            if slot.template == 1 {
                return push_both_bits(pass, shape, zero);
            }
        }
        pass.move_out(StatusFlag::Overflow, NONE)?;
    }
    // The source rule wants a word of an input array to stay where it is.
    let ruled = shape.reads_array() && slot.template == 0;
    match bit_sum(pass, a, b) {
        Some(sum) if !ruled => push_bit_sum(pass, shape, slot, sum),
        _ if slot.template == 1 => push_lea(pass, shape, a, b, slot),
        _ => push_add(pass, shape, slot),
    }
}
