//! Sums with a carry, and differences with a borrow.

use crate::pairs::{Pair, pair_of};
use crate::sums::push_lea;
use draft_lines::{Draft, Form};
use op_order::Slot;
use operand_keys::{Key, Shape};
use pass_state::{Choice, Pass, registers_in};
use std::alloc::AllocError;
use word_places::{FlagWord, NONE, StatusFlag, both, only};
use word_program::Kind;
use x86_instr::Bin;

/// A way to add or subtract.
#[derive(Clone, Copy)]
struct Way {
    form: Form,
    // The flag that the carry comes from and goes to.
    flag: StatusFlag,
    // Whether the line reads no carry.
    fresh: bool,
    // Whether it overwrites both flags.
    both: bool,
}

fn way_of(kind: Kind, template: u8) -> Way {
    let carry = StatusFlag::Carry;
    let (form, flag, fresh, both) = match (kind, template) {
        (Kind::AddCarry, 0) => (Form::Binary(Bin::Adc), carry, false, true),
        (Kind::AddCarry, 1) => (Form::Adcx, carry, false, false),
        (Kind::AddCarry, 2) => (Form::Adox, StatusFlag::Overflow, false, false),
        (Kind::AddCarry, _) => (Form::Binary(Bin::Add), carry, true, true),
        (_, 0) => (Form::Binary(Bin::Sbb), carry, false, true),
        (_, _) => (Form::Binary(Bin::Sub), carry, true, true),
    };
    Way {
        form,
        flag,
        fresh,
        both,
    }
}

fn choice_of(form: Form) -> Choice {
    match form {
        Form::Adcx | Form::Adox => Choice::NoNumber,
        _ => Choice::Any,
    }
}

/// A word that is in a flag alone goes to a register. It stays in the flag where it is the carry that goes in, too.
fn settle_operand(pass: &mut Pass, key: Key, carry: Key) -> Result<(), AllocError> {
    let Some(flag) = pass.only_flag_of(key) else {
        return Ok(());
    };
    if pass.schedule.is_live(key) && key == carry {
        return pass.copy_out(flag);
    }
    pass.move_out(flag, NONE)
}

/// What the line overwrites goes to registers, but for the carry that goes in.
fn rescue_flags(pass: &mut Pass, way: Way, there: bool) -> Result<(), AllocError> {
    let overflow = way.flag == StatusFlag::Overflow;
    if (way.both || overflow) && !(there && overflow) {
        pass.rescue(StatusFlag::Overflow)?;
    }
    if (way.both || !overflow) && !(there && !overflow) {
        pass.rescue(StatusFlag::Carry)?;
    }
    Ok(())
}

/// The carry that goes in, which is not in the line's flag, goes to a register.
fn settle_carry(pass: &mut Pass, way: Way, carry: Key) -> Result<(), AllocError> {
    pass.settle_word(carry)?;
    if way.flag == StatusFlag::Carry {
        pass.rescue(StatusFlag::Overflow)?;
    }
    let reg = pass.to_register(carry, NONE)?;
    pass.pin_one(reg);
    Ok(())
}

/// Where the carry comes from that goes in.
#[derive(Clone, Copy, PartialEq, Eq)]
enum CarryIn {
    /// The line reads none.
    Unread,
    /// It is 0.
    Zero,
    /// It is in the line's flag.
    There,
    /// It is elsewhere.
    Elsewhere,
}

fn carry_in(pass: &Pass, way: Way, carry: Key) -> CarryIn {
    if way.fresh {
        return CarryIn::Unread;
    }
    if pass.keys.is_zero(carry) {
        return CarryIn::Zero;
    }
    if pass.flags.key(way.flag) == Some(carry) {
        return CarryIn::There;
    }
    CarryIn::Elsewhere
}

/// Brings the carry that goes in to the line's flag.
fn bring_carry(
    pass: &mut Pass,
    way: Way,
    from: CarryIn,
    carry: Key,
    pair: Pair,
) -> Result<(), AllocError> {
    match (from, way.flag) {
        (CarryIn::Unread | CarryIn::There, _) => Ok(()),
        (CarryIn::Zero, flag) => pass.clear_flag(flag),
        (CarryIn::Elsewhere, StatusFlag::Carry) => {
            let operands = both(only(pair.dst), registers_in(pair.source));
            pass.into_carry(carry, operands)
        }
        (CarryIn::Elsewhere, StatusFlag::Overflow) => pass.into_overflow(carry),
    }
}

/// The lines of an `addcarryx` or a `subborrowx`.
pub fn push_arithmetic(pass: &mut Pass, shape: &Shape, slot: Slot) -> Result<(), AllocError> {
    if matches!(shape.kind, Kind::AddCarry) && slot.template == 4 {
        return push_lea(pass, shape, shape.operand(1), shape.operand(2), slot);
    }
    let carry = shape.operand(0);
    settle_operand(pass, shape.operand(1), carry)?;
    settle_operand(pass, shape.operand(2), carry)?;
    let way = way_of(shape.kind, slot.template);
    let from = carry_in(pass, way, carry);
    rescue_flags(pass, way, from == CarryIn::There)?;
    if from == CarryIn::There && pass.schedule.is_live(carry) {
        pass.copy_out(way.flag)?;
    }
    if from == CarryIn::Elsewhere {
        settle_carry(pass, way, carry)?;
    }
    let pair = pair_of(pass, shape, slot, choice_of(way.form))?;
    bring_carry(pass, way, from, carry, pair)?;
    pass.release(false);
    let at = pass.emit_owned(Draft::new(way.form, pair.dst, pair.source))?;
    pass.note_user(at);
    finish_both(pass, shape, way.flag, pair)
}

/// The sum goes where it is needed, and the carry stays in its flag, unless it goes to an output.
fn finish_both(
    pass: &mut Pass,
    shape: &Shape,
    flag: StatusFlag,
    pair: Pair,
) -> Result<(), AllocError> {
    if shape.is_stored(1) {
        pass.flags.set(flag, FlagWord::Unknown);
        pass.finish(shape, 0, pair.dst)?;
        return pass.finish_flag(shape, flag);
    }
    pass.finish_flag(shape, flag)?;
    pass.finish(shape, 0, pair.dst)
}
