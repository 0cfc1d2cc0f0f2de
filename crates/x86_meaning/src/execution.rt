ghost use Rattle.std.specs.Prelude.{◌≡◌, ◌+◌, ◌-◌, ◌*◌, ◌/◌, ◌%◌, ◌^◌, ◌<◌, ◌≤◌, false, Some, None, MatchOption};
ghost use Rattle.std.specs.Bool.{MatchBool};
ghost use Rattle.x86_instr.specs.Listings.{is_ret};
ghost use Rattle.x86_meaning.specs.Machine as spec;

use crate::arithmetic::{
    adcx_into, adox_into, compare, count_into, difference_into, imul_into, logic_flags, logic_into,
    mul_into, mulx_into, neg_into, sum_into,
};
use crate::shifts::{shl_into, shr_into, shrd_into};
use crate::state::State;
use x86_instr::{Bin, Instr, Mem, Reg, Un};

/// Runs one instruction, which is not `ret`. False exactly where it is stuck, with the state unchanged:
/// where it reads an undefined flag, or reads or writes an address outside the memory. It takes no memory.
pub fn step(state: &mut State, instr: &Instr) -> bool
    requires { is_ret instr.now ≡ false }
    ensures { MatchBool result (spec.step_of instr.now state.old ≡ Some state.new)
        ((spec.step_of instr.now state.old ≡ None) × (state.new ≡ state.old)) }
{
    stepped(state, instr).is_some()
}

fn stepped(state: &mut State, instr: &Instr) -> Option<()>
    ensures { MatchOption result ((spec.step_of instr.now state.old ≡ None) × (state.new ≡ state.old))
        (λ _. spec.step_of instr.now state.old ≡ Some state.new) }
{
    match *instr {
        Instr::Mov { dst, src } => state.set_reg(dst, state.rm_word(src)?),
        Instr::MovImm { dst, imm } => state.set_reg(dst, imm),
        Instr::Store { mem, src } => return store(state, mem, src),
        Instr::Lea { dst, mem } => state.set_reg(dst, state.effective_address(mem)),
        Instr::Bin { op, dst, src } => {
            let word = state.src_word(src)?;
            return bin_into(state, op, dst, word);
        }
        Instr::Test { a, b } => logic_flags(state, state.reg(a) & state.reg(b)),
        Instr::Un { op, dst } => un_into(state, op, dst),
        Instr::Adcx { dst, src } => {
            let word = state.rm_word(src)?;
            let carry = state.cf?;
            adcx_into(state, dst, word, carry);
        }
        Instr::Adox { dst, src } => {
            let word = state.rm_word(src)?;
            let carry = state.of?;
            adox_into(state, dst, word, carry);
        }
        Instr::Mulx { hi, lo, src } => {
            let word = state.rm_word(src)?;
            mulx_into(state, hi, lo, word);
        }
        Instr::Mul { src } => {
            let word = state.rm_word(src)?;
            mul_into(state, word);
        }
        Instr::Imul { dst, src } => {
            let word = state.rm_word(src)?;
            imul_into(state, dst, word);
        }
        Instr::Shl { dst, by } => shl_into(state, dst, by),
        Instr::Shr { dst, by } => shr_into(state, dst, by),
        Instr::Shrd { dst, src, by } => shrd_into(state, dst, src, by),
        Instr::Shlx { dst, src, count } => {
            let word = state.rm_word(src)?;
            state.set_reg(dst, word << (state.reg(count) % 64));
        }
        Instr::Shrx { dst, src, count } => {
            let word = state.rm_word(src)?;
            state.set_reg(dst, word >> (state.reg(count) % 64));
        }
        Instr::Set { cond, dst } => {
            let condition_holds = state.condition_holds(cond)?;
            set_into(state, dst, condition_holds);
        }
        Instr::Movzx { dst, src } => state.set_reg(dst, state.reg(src) % 256),
        Instr::Cmov { cond, dst, src } => {
            let word = state.rm_word(src)?; // read in any case
            let condition_holds = state.condition_holds(cond)?;
            cmov_into(state, dst, word, condition_holds);
        }
        Instr::Clc => state.cf = Some(false),
        Instr::Ret => (),
    }
    Some(())
}

fn store(state: &mut State, mem: Mem, src: Reg) -> Option<()>
    ensures { MatchOption result ((spec.stored (spec.effective_address state.old mem)
        (spec.reg state.old src) state.old ≡ None) × (state.new ≡ state.old))
        (λ _. spec.stored (spec.effective_address state.old mem) (spec.reg state.old src) state.old ≡ Some state.new) }
{
    let address = state.effective_address(mem);
    let word = state.reg(src);
    if !state.cells.replace(address, word) {
        return None;
    }
    Some(())
}

fn bin_into(state: &mut State, op: Bin, dst: Reg, word: u64) -> Option<()>
    ensures { MatchOption result ((spec.bin_into op dst word state.old ≡ None) × (state.new ≡ state.old))
        (λ _. spec.bin_into op dst word state.old ≡ Some state.new) }
{
    match op {
        Bin::Add => sum_into(state, dst, word, false),
        Bin::Adc => {
            let carry = state.cf?;
            sum_into(state, dst, word, carry);
        }
        Bin::Sub => difference_into(state, dst, word, false),
        Bin::Sbb => {
            let borrow = state.cf?;
            difference_into(state, dst, word, borrow);
        }
        Bin::And => logic_into(state, dst, state.reg(dst) & word),
        Bin::Or => logic_into(state, dst, state.reg(dst) | word),
        Bin::Xor => logic_into(state, dst, state.reg(dst) ^ word),
        Bin::Cmp => compare(state, dst, word),
    }
    Some(())
}

fn un_into(state: &mut State, op: Un, dst: Reg)
    ensures { state.new ≡ spec.un_into op dst (spec.reg state.old dst) state.old }
{
    let word = state.reg(dst);
    match op {
        Un::Inc => count_into(state, dst, word.wrapping_add(1), word == (1 << 63) - 1),
        Un::Dec => count_into(state, dst, word.wrapping_sub(1), word == 1 << 63),
        Un::Neg => neg_into(state, dst),
        Un::Not => state.set_reg(dst, !word),
    }
}

fn cmov_into(state: &mut State, dst: Reg, word: u64, condition_holds: bool)
    ensures { state.new ≡ spec.cmov_into dst word condition_holds state.old }
{
    let word = if condition_holds {
        word
    } else {
        state.reg(dst)
    };
    state.set_reg(dst, word);
}

fn set_into(state: &mut State, dst: Reg, condition_holds: bool)
    ensures { state.new ≡ spec.set_into dst condition_holds state.old }
{
    let word = state.reg(dst);
    state.set_reg(dst, word / 256 * 256 + u64::from(condition_holds));
}
