//! The registers and flags that shifts write.

ghost use Rattle.std.specs.Prelude.{◌≡◌, ◌+◌, ◌-◌, ◌*◌, ◌/◌, ◌%◌, ◌^◌, ◌<◌, ◌≤◌};
ghost use Rattle.x86_meaning.specs.Machine as spec;

use crate::state::State;
use x86_instr::{Reg, ShiftCount};

/// A word into a register, with the flags of a shift, given the bit that it shifts out last.
fn shift_into(state: &mut State, dst: Reg, word: u64, out: bool)
    ensures { state.new ≡ spec.shift_into dst word out state.old }
{
    state.cf = Some(out);
    state.of = None;
    state.zf = Some(word == 0);
    state.set_reg(dst, word);
}

/// Whether a bit of a word is set, counted from 0 at the lowest.
fn has_bit(word: u64, number: u8) -> bool
    requires { number < 64 }
    ensures { result ≡ spec.has_bit word number }
{
    (word >> number) % 2 == 1
}

/// A register's word shifted to the left.
pub fn shl_into(state: &mut State, dst: Reg, by: ShiftCount)
    ensures { state.new ≡ spec.shift_into dst (spec.reg state.old dst * 2 ^ by % 2 ^ 64)
        (spec.has_bit (spec.reg state.old dst) (64 - by)) state.old }
{
    let old = state.reg(dst);
    let bits = by.bits();
    shift_into(state, dst, old << bits, has_bit(old, 64 - bits));
}

/// A register's word shifted to the right.
pub fn shr_into(state: &mut State, dst: Reg, by: ShiftCount)
    ensures { state.new ≡ spec.shift_into dst (spec.reg state.old dst / 2 ^ by)
        (spec.has_bit (spec.reg state.old dst) (by - 1)) state.old }
{
    let old = state.reg(dst);
    let bits = by.bits();
    shift_into(state, dst, old >> bits, has_bit(old, bits - 1));
}

/// The low word shifted to the right and filled up from the high one.
#[tactic(auto, using(crate::proofs::Funnel::funnel_fits))]
fn funnel(low: u64, high: u64, bits: u8) -> u64
    requires low { 1 ≤ bits }
    requires high { bits ≤ 63 }
    ensures { result ≡ spec.funnel low high bits }
{
    (low >> bits) + (high << (64 - bits))
}

/// A register's word shifted to the right and filled up from another register.
pub fn shrd_into(state: &mut State, dst: Reg, src: Reg, by: ShiftCount)
    ensures { state.new ≡ spec.shift_into dst (spec.funnel (spec.reg state.old dst) (spec.reg state.old src) by)
        (spec.has_bit (spec.reg state.old dst) (by - 1)) state.old }
{
    let old = state.reg(dst);
    let bits = by.bits();
    let word = funnel(old, state.reg(src), bits);
    shift_into(state, dst, word, has_bit(old, bits - 1));
}
