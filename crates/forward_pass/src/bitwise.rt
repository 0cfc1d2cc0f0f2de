//! Operations of two words to one: differences, products of one word, and what works on each bit.

use crate::pairs::pair_of;
use draft_lines::{Draft, Form, Source};
use op_order::Slot;
use operand_keys::{Key, Shape};
use pass_state::{Choice, Pass};
use std::alloc::AllocError;
use word_places::{FlagWord, NONE, StatusFlag};
use word_program::Kind;
use x86_instr::Bin;

fn form_of(kind: Kind) -> Form {
    match kind {
        Kind::Sub => Form::Binary(Bin::Sub),
        Kind::And => Form::Binary(Bin::And),
        Kind::Or => Form::Binary(Bin::Or),
        Kind::Xor => Form::Binary(Bin::Xor),
        _ => Form::Imul,
    }
}

fn clears_flags(kind: Kind) -> bool {
    matches!(kind, Kind::And | Kind::Or | Kind::Xor)
}

/// Whether a bit in the carry flag, which dies, is taken from 0.
fn is_mask(pass: &Pass, shape: &Shape) -> bool {
    let bit = shape.operand(1);
    let of_zero = matches!(shape.kind, Kind::Sub) && pass.keys.is_zero(shape.operand(0));
    of_zero && pass.only_flag_of(bit) == Some(StatusFlag::Carry) && !pass.schedule.is_live(bit)
}

/// A register minus itself and the carry is 0 minus the carry.
fn push_mask(pass: &mut Pass, shape: &Shape) -> Result<(), AllocError> {
    pass.rescue(StatusFlag::Overflow)?;
    let wish = pass.schedule.is_wanted(shape.first);
    let dst = pass.free(NONE, wish)?;
    pass.emit(Draft::alone(Form::Binary(Bin::Sbb), dst))?;
    pass.emit_owned(Draft::new(Form::Binary(Bin::Sub), dst, Source::Number(0)))?;
    pass.flags.set(StatusFlag::Carry, FlagWord::Zero);
    pass.release(false);
    pass.finish(shape, 0, dst)
}

fn settle_words(pass: &mut Pass, a: Key, b: Key) -> Result<(), AllocError> {
    pass.settle_word(a)?;
    pass.settle_word(b)?;
    pass.rescue_both()
}

/// The lines of `-`, `&`, `|` and `^`, and of `*` by `imul`.
pub fn push_bitwise(pass: &mut Pass, shape: &Shape, slot: Slot) -> Result<(), AllocError> {
    if is_mask(pass, shape) {
        return push_mask(pass, shape);
    }
    settle_words(pass, shape.operand(0), shape.operand(1))?;
    let form = form_of(shape.kind);
    let choice = if form == Form::Imul {
        Choice::NoNumber
    } else {
        Choice::Any
    };
    let pair = pair_of(pass, shape, slot, choice)?;
    pass.release(false);
    let at = pass.emit_owned(Draft::new(form, pair.dst, pair.source))?;
    pass.note_user(at);
    if clears_flags(shape.kind) {
        pass.flags.set_both_zero();
    }
    pass.finish(shape, 0, pair.dst)
}
