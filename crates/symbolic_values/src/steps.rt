//! The symbolic step of each instruction.

ghost use Rattle.std.specs.Prelude.{◌≡◌, ◌+◌, ◌-◌, ◌^◌, ◌<◌, ◌≤◌, length, IfOk, OnErr, Some, None};
ghost use Rattle.x86_instr.specs.declared.instr.Instr.TheVariants as instrs;
ghost use Rattle.terms.specs.Tables.{Prefix};
ghost use Rattle.symbolic_values.specs.declared.moved.Moved.TheVariants.{Done};
ghost use Rattle.symbolic_state.specs.Fitting.{FitsTable};
ghost use Rattle.symbolic_state.specs.Symbols as symbols;
ghost use Rattle.symbolic_values.specs.Moving.{IsStep, Leaves};
ghost use Rattle.symbolic_values.specs.Sourced as sourced;
ghost use Rattle.symbolic_values.specs.Steps as steps;

use crate::binary::binary_row;
use crate::chains::{add_by_carry, add_by_overflow};
use crate::conditions::{low_byte, move_on_condition, set_condition};
use crate::moved::Moved;
use crate::products::{multiply, multiply_low, multiply_to};
use crate::rows::{clear_carry, logic, result_only};
use crate::shifts::{shift_double, shift_left, shift_left_by, shift_right, shift_right_by};
use crate::storing::store_word;
use crate::unary::unary_row;
use program_nodes::make;
use std::alloc::AllocError;
use symbolic_state::{SymState, Touch};
use term_store::Interner;
use terms::Form;
use x86_instr::{Bin, Instr, Line, Mem, Reg, Rm, Src};

/// The source of an instruction, where it is a register or a word of the memory.
fn source_of(instr: &Instr) -> Option<Rm>
    ensures { result ≡ sourced.source_of instr.now }
{
    match *instr {
        Instr::Mov { src, .. }
        | Instr::Adcx { src, .. }
        | Instr::Adox { src, .. }
        | Instr::Mulx { src, .. }
        | Instr::Mul { src }
        | Instr::Imul { src, .. }
        | Instr::Shlx { src, .. }
        | Instr::Shrx { src, .. }
        | Instr::Cmov { src, .. } => Some(src),
        _ => None,
    }
}

/// Steps over an instruction whose source has this node.
fn step_on<T: Interner>(
    state: &mut SymState,
    store: &mut T,
    touch: Option<Touch>,
    instr: &Instr,
    source: u32,
) -> Result<Moved, AllocError>
    requires room { length (T.nodes store.now) ≤ 2 ^ 32 - 8 }
    requires fits { FitsTable (T.nodes store.now) state.now }
    requires inside { source < length (T.nodes store.now) }
    ensures step { Leaves 3 (sourced.step_on instr.now state.old source (T.nodes store.old)
        (symbols.with_touch touch state.old)) result (T.nodes store.old) (T.nodes store.new) state.old state.new }
    ensures fixed { T.fixed store.new ≡ T.fixed store.old }
{
    match *instr {
        Instr::Mov { dst, .. } => Ok(move_to(state, touch, dst, source)),
        Instr::Adcx { dst, .. } => add_by_carry(state, store, touch, dst, source),
        Instr::Adox { dst, .. } => add_by_overflow(state, store, touch, dst, source),
        Instr::Mulx { hi, lo, .. } => multiply_to(state, store, touch, hi, lo, source),
        Instr::Mul { .. } => multiply(state, store, touch, source),
        Instr::Imul { dst, .. } => multiply_low(state, store, touch, dst, source),
        Instr::Shlx { dst, count, .. } => shift_left_by(state, store, touch, dst, count, source),
        Instr::Shrx { dst, count, .. } => shift_right_by(state, store, touch, dst, count, source),
        Instr::Cmov { cond, dst, .. } => move_on_condition(state, store, touch, cond, dst, source),
        _ => Ok(Moved::Stuck),
    }
}

/// Fetches the source of an instruction, and steps over it.
#[tactic(auto, using(crate::proofs::StepRules::fetching))]
fn fetch_and_step<T: Interner>(
    state: &mut SymState,
    store: &mut T,
    instr: &Instr,
    src: Rm,
) -> Result<Moved, AllocError>
    requires room { length (T.nodes store.now) ≤ 2 ^ 32 - 32 }
    requires fits { FitsTable (T.nodes store.now) state.now }
    requires source { sourced.source_of instr.now ≡ Some src }
    ensures step { Leaves 16 (steps.step_from instr.now (T.nodes store.old) (symbols.with_touch None state.old))
        result (T.nodes store.old) (T.nodes store.new) state.old state.new }
    ensures fixed { T.fixed store.new ≡ T.fixed store.old }
{
    let Some(word) = state.fetched_rm(store, src)? else {
        return Ok(Moved::Stuck);
    };
    step_on(state, store, word.touch, instr, word.node)
}

/// `mov` of a node that is there.
fn move_to(state: &mut SymState, touch: Option<Touch>, dst: Reg, node: u32) -> Moved
    ensures moved { result ≡ Done }
    ensures state { state.new ≡ symbols.with_node dst node (symbols.with_touch touch state.old) }
{
    state.set_touch(touch);
    state.set_register(dst, node);
    Moved::Done
}

/// `mov` from an immediate.
#[tactic(auto, unfolding(symbolic_state::specs::Fetching::fetched_const))]
fn mov_imm<T: Interner>(
    state: &mut SymState,
    store: &mut T,
    dst: Reg,
    imm: u64,
) -> Result<Moved, AllocError>
    requires room { length (T.nodes store.now) ≤ 2 ^ 32 - 32 }
    ensures step { Leaves 16 (steps.step_from (instrs.MovImm dst imm) (T.nodes store.old)
        (symbols.with_touch None state.old)) result (T.nodes store.old) (T.nodes store.new) state.old state.new }
    ensures fixed { T.fixed store.new ≡ T.fixed store.old }
{
    let node = make(store, Form::Const(imm))?;
    Ok(move_to(state, None, dst, node))
}

/// `lea`
#[tactic(auto, using(crate::proofs::StepRules::fetching))]
fn lea<T: Interner>(
    state: &mut SymState,
    store: &mut T,
    dst: Reg,
    mem: Mem,
) -> Result<Moved, AllocError>
    requires room { length (T.nodes store.now) ≤ 2 ^ 32 - 32 }
    requires fits { FitsTable (T.nodes store.now) state.now }
    ensures step { Leaves 16 (steps.step_from (instrs.Lea dst mem) (T.nodes store.old)
        (symbols.with_touch None state.old)) result (T.nodes store.old) (T.nodes store.new) state.old state.new }
    ensures fixed { T.fixed store.new ≡ T.fixed store.old }
{
    let address = state.address(mem)?;
    result_only(state, store, None, dst, address)
}

/// An operation on a destination register and a source.
#[tactic(auto, using(crate::proofs::StepRules::fetching))]
fn bin<T: Interner>(
    state: &mut SymState,
    store: &mut T,
    op: Bin,
    dst: Reg,
    src: Src,
) -> Result<Moved, AllocError>
    requires room { length (T.nodes store.now) ≤ 2 ^ 32 - 32 }
    requires fits { FitsTable (T.nodes store.now) state.now }
    ensures step { Leaves 16 (steps.step_from (instrs.Bin op dst src) (T.nodes store.old)
        (symbols.with_touch None state.old)) result (T.nodes store.old) (T.nodes store.new) state.old state.new }
    ensures fixed { T.fixed store.new ≡ T.fixed store.old }
{
    let Some(word) = state.fetched_src(store, src)? else {
        return Ok(Moved::Stuck);
    };
    binary_row(state, store, word.touch, op, dst, word.node)
}

/// `test`
#[tactic(auto, using(crate::proofs::StepRules::fetching))]
fn test_bits<T: Interner>(
    state: &mut SymState,
    store: &mut T,
    a: Reg,
    b: Reg,
) -> Result<Moved, AllocError>
    requires room { length (T.nodes store.now) ≤ 2 ^ 32 - 32 }
    requires fits { FitsTable (T.nodes store.now) state.now }
    ensures step { Leaves 16 (steps.step_from (instrs.Test a b) (T.nodes store.old)
        (symbols.with_touch None state.old)) result (T.nodes store.old) (T.nodes store.new) state.old state.new }
    ensures fixed { T.fixed store.new ≡ T.fixed store.old }
{
    let value = Form::And(state.register(a), state.register(b));
    logic(state, store, None, None, value)
}

/// Steps over an instruction that has no source in a register or the memory.
fn step_alone<T: Interner>(
    state: &mut SymState,
    store: &mut T,
    instr: &Instr,
) -> Result<Moved, AllocError>
    requires room { length (T.nodes store.now) ≤ 2 ^ 32 - 32 }
    requires fits { FitsTable (T.nodes store.now) state.now }
    requires source { sourced.source_of instr.now ≡ None }
    ensures step { Leaves 16 (steps.step_from instr.now (T.nodes store.old) (symbols.with_touch None state.old))
        result (T.nodes store.old) (T.nodes store.new) state.old state.new }
    ensures fixed { T.fixed store.new ≡ T.fixed store.old }
{
    match *instr {
        Instr::MovImm { dst, imm } => mov_imm(state, store, dst, imm),
        Instr::Store { mem, src } => store_word(state, store, mem, src),
        Instr::Lea { dst, mem } => lea(state, store, dst, mem),
        Instr::Bin { op, dst, src } => bin(state, store, op, dst, src),
        Instr::Test { a, b } => test_bits(state, store, a, b),
        Instr::Un { op, dst } => unary_row(state, store, op, dst),
        Instr::Shl { dst, by } => shift_left(state, store, dst, by),
        Instr::Shr { dst, by } => shift_right(state, store, dst, by),
        Instr::Shrd { dst, src, by } => shift_double(state, store, dst, src, by),
        Instr::Set { cond, dst } => set_condition(state, store, cond, dst),
        Instr::Movzx { dst, src } => low_byte(state, store, dst, src),
        Instr::Clc => clear_carry(state, store),
        _ => {
            state.set_touch(None);
            Ok(Moved::Done)
        }
    }
}

/// Steps over one instruction.
#[tactic(auto, unfolding(crate::specs::Steps::step_of), using(crate::proofs::StepRules::growing))]
fn step_over<T: Interner>(
    state: &mut SymState,
    store: &mut T,
    instr: &Instr,
) -> Result<Moved, AllocError>
    requires fits { FitsTable (T.nodes store.now) state.now }
    requires room { length (T.nodes store.now) ≤ 2 ^ 32 - 32 }
    ensures step { Leaves 16 (steps.step_of instr.now (T.nodes store.old) state.old) result (T.nodes store.old)
        (T.nodes store.new) state.old state.new }
    ensures fixed { T.fixed store.new ≡ T.fixed store.old }
{
    match source_of(instr) {
        Some(src) => fetch_and_step(state, store, instr, src),
        None => step_alone(state, store, instr),
    }
}

/// Steps over the instruction of a line. Stuck exactly where the instruction reads an unknown flag or word, reads
/// or writes what is no known cell, or shifts by a register that holds no constant; the state is then unchanged.
/// The one error is want of memory, which leaves the state unchanged too; the table is then a first part of the one
/// that the whole step would leave. In every case the table goes on, by at most 16 nodes, and the state fits it.
pub fn sym_step<T: Interner>(
    state: &mut SymState,
    store: &mut T,
    line: &Line,
) -> Result<Moved, AllocError>
    requires fits { FitsTable (T.nodes store.now) state.now }
    requires room { length (T.nodes store.now) ≤ 2 ^ 32 - 32 }
    ensures step { IfOk result (λ moved. IsStep moved (steps.step_of line.now.instr (T.nodes store.old) state.old)
        (T.nodes store.new) state.old state.new) }
    ensures part { OnErr result (Prefix (T.nodes store.new)
        (steps.step_of line.now.instr (T.nodes store.old) state.old).table) }
    ensures err { OnErr result (state.new ≡ state.old) }
    ensures grows { Prefix (T.nodes store.old) (T.nodes store.new) }
    ensures most { length (T.nodes store.new) ≤ length (T.nodes store.old) + 16 }
    ensures fixed { T.fixed store.new ≡ T.fixed store.old }
    ensures fits { FitsTable (T.nodes store.new) state.new }
{
    let _count = store.count();
    step_over(state, store, &line.instr)
}
