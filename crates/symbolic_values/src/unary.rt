//! The rows of the instructions on one register.

ghost use Rattle.std.specs.Prelude.{◌≡◌, ◌-◌, ◌^◌, ◌≤◌, length, None};
ghost use Rattle.x86_instr.specs.declared.instr.Un.TheVariants.{Dec, Not};
ghost use Rattle.symbolic_state.specs.Fitting.{FitsTable};
ghost use Rattle.symbolic_state.specs.Symbols as symbols;
ghost use Rattle.symbolic_values.specs.Moving.{Leaves};
ghost use Rattle.symbolic_values.specs.Steps as steps;

use crate::moved::Moved;
use crate::rows::{arithmetic, result_and_overflow, result_and_zero, result_only};
use program_nodes::{borrow1, lin1, make, minus, plus};
use std::alloc::AllocError;
use symbolic_state::SymState;
use term_store::Interner;
use terms::Form;
use x86_instr::{Reg, Un};

/// `inc`. It overflows where the register holds 2^63 - 1; so where the register less 2^63 - 2 is a bit, that bit is
/// the overflow flag.
#[tactic(auto, using(crate::proofs::StepRules::fitting))]
fn increment<T: Interner>(
    state: &mut SymState,
    store: &mut T,
    dst: Reg,
) -> Result<Moved, AllocError>
    requires room { length (T.nodes store.now) ≤ 2 ^ 32 - 9 }
    requires fits { FitsTable (T.nodes store.now) state.now }
    ensures step { Leaves 4 (steps.inc_step dst (symbols.node_in state.old dst) (T.nodes store.old)
        (symbols.with_touch None state.old)) result (T.nodes store.old) (T.nodes store.new) state.old state.new }
    ensures fixed { T.fixed store.new ≡ T.fixed store.old }
{
    let alloc = state.alloc();
    let old = state.register(dst);
    let value = lin1(alloc, 1, plus(old))?;
    let overflow = lin1(alloc, (1 << 63) + 2, plus(old))?;
    result_and_overflow(state, store, dst, value, overflow)
}

/// `dec`
#[tactic(auto, using(crate::proofs::StepRules::fitting))]
fn decrement<T: Interner>(
    state: &mut SymState,
    store: &mut T,
    dst: Reg,
) -> Result<Moved, AllocError>
    requires room { length (T.nodes store.now) ≤ 2 ^ 32 - 9 }
    requires fits { FitsTable (T.nodes store.now) state.now }
    ensures step { Leaves 4 (steps.un_step Dec dst (symbols.node_in state.old dst) (T.nodes store.old)
        (symbols.with_touch None state.old)) result (T.nodes store.old) (T.nodes store.new) state.old state.new }
    ensures fixed { T.fixed store.new ≡ T.fixed store.old }
{
    let value = lin1(state.alloc(), u64::MAX, plus(state.register(dst)))?;
    result_and_zero(state, store, state.carry(), dst, value)
}

/// `neg`
#[tactic(auto, unfolding(crate::specs::Steps::neg_step), using(crate::proofs::StepRules::fitting_later))]
fn negate<T: Interner>(state: &mut SymState, store: &mut T, dst: Reg) -> Result<Moved, AllocError>
    requires room { length (T.nodes store.now) ≤ 2 ^ 32 - 9 }
    requires fits { FitsTable (T.nodes store.now) state.now }
    ensures step { Leaves 4 (steps.neg_step dst (symbols.node_in state.old dst) (T.nodes store.old)
        (symbols.with_touch None state.old)) result (T.nodes store.old) (T.nodes store.new) state.old state.new }
    ensures fixed { T.fixed store.new ≡ T.fixed store.old }
{
    let alloc = state.alloc();
    let old = state.register(dst);
    let nought = make(store, Form::Const(0))?;
    let value = lin1(alloc, 0, minus(old))?;
    let carry = borrow1(alloc, nought, old)?;
    arithmetic(state, store, None, Some(dst), value, carry)
}

/// `not`
#[tactic(auto, using(crate::proofs::StepRules::fitting))]
fn invert<T: Interner>(state: &mut SymState, store: &mut T, dst: Reg) -> Result<Moved, AllocError>
    requires room { length (T.nodes store.now) ≤ 2 ^ 32 - 9 }
    requires fits { FitsTable (T.nodes store.now) state.now }
    ensures step { Leaves 4 (steps.un_step Not dst (symbols.node_in state.old dst) (T.nodes store.old)
        (symbols.with_touch None state.old)) result (T.nodes store.old) (T.nodes store.new) state.old state.new }
    ensures fixed { T.fixed store.new ≡ T.fixed store.old }
{
    let value = lin1(state.alloc(), u64::MAX, minus(state.register(dst)))?;
    result_only(state, store, None, dst, value)
}

/// An operation on one register.
pub(crate) fn unary_row<T: Interner>(
    state: &mut SymState,
    store: &mut T,
    op: Un,
    dst: Reg,
) -> Result<Moved, AllocError>
    requires room { length (T.nodes store.now) ≤ 2 ^ 32 - 9 }
    requires fits { FitsTable (T.nodes store.now) state.now }
    ensures step { Leaves 4 (steps.un_step op dst (symbols.node_in state.old dst) (T.nodes store.old)
        (symbols.with_touch None state.old)) result (T.nodes store.old) (T.nodes store.new) state.old state.new }
    ensures fixed { T.fixed store.new ≡ T.fixed store.old }
{
    match op {
        Un::Inc => increment(state, store, dst),
        Un::Dec => decrement(state, store, dst),
        Un::Neg => negate(state, store, dst),
        Un::Not => invert(state, store, dst),
    }
}
