//! The rows of shifts.

ghost use Rattle.std.specs.Prelude.{◌≡◌, ◌+◌, ◌-◌, ◌%◌, ◌^◌, ◌<◌, ◌≤◌, [], ◌∷◌, length, IfOk, IfSome, None};
ghost use Rattle.std.specs.Prelude.{option_map};
ghost use Rattle.terms.specs.Rules.{constant_at};
ghost use Rattle.program_nodes.specs.Terms as linear;
ghost use Rattle.symbolic_state.specs.Fitting.{FitsTable};
ghost use Rattle.symbolic_state.specs.Symbols as symbols;
ghost use Rattle.symbolic_values.specs.Moving.{Leaves};
ghost use Rattle.symbolic_values.specs.Steps as steps;

use crate::moved::Moved;
use crate::rows::{result_and_zero, result_only, sum_of_two};
use program_nodes::{lin1, times};
use std::alloc::{AllocError, Global};
use symbolic_state::{SymState, Touch};
use term_store::Interner;
use terms::{Form, NodeKind, Nodes};
use x86_instr::{Reg, ShiftCount};

/// The constant that a node is, modulo 64, where it is one.
fn constant_count<T: Nodes>(store: &T, number: u32) -> Option<u8>
    requires { number < length (T.nodes store.now) }
    ensures count { result ≡ option_map (λ k. k % 64) (constant_at (T.nodes store.now) number) }
    ensures range { IfSome result (λ k. k < 64) }
{
    match &store.node(number).kind {
        NodeKind::Const(k) => Some((*k % 64) as u8),
        _ => None,
    }
}

/// The number of bits, from 1 to 63.
fn shift_bits(by: ShiftCount) -> u8
    ensures number { result ≡ by }
    ensures least { 1 ≤ result }
    ensures most { result ≤ 63 }
{
    by.bits()
}

/// What moves into the low word of two.
fn moved_in(alloc: Global, by: ShiftCount, high: u32) -> Result<Form, AllocError>
    ensures { IfOk result (λ form. form ≡ linear.sum (linear.term (2 ^ (64 - by)) high ∷ [])) }
{
    lin1(alloc, 0, times(1 << (64 - shift_bits(by)), high))
}

/// `shl`
#[tactic(auto, using(crate::proofs::StepRules::fitting))]
pub(crate) fn shift_left<T: Interner>(
    state: &mut SymState,
    store: &mut T,
    dst: Reg,
    by: ShiftCount,
) -> Result<Moved, AllocError>
    requires room { length (T.nodes store.now) ≤ 2 ^ 32 - 12 }
    requires fits { FitsTable (T.nodes store.now) state.now }
    ensures step { Leaves 4 (steps.shl_step dst (symbols.node_in state.old dst) by (T.nodes store.old)
        (symbols.with_touch None state.old)) result (T.nodes store.old) (T.nodes store.new) state.old state.new }
    ensures fixed { T.fixed store.new ≡ T.fixed store.old }
{
    let value = lin1(state.alloc(), 0, times(1 << by.bits(), state.register(dst)))?;
    result_and_zero(state, store, None, dst, value)
}

/// `shr`
#[tactic(auto, using(crate::proofs::StepRules::fitting))]
pub(crate) fn shift_right<T: Interner>(
    state: &mut SymState,
    store: &mut T,
    dst: Reg,
    by: ShiftCount,
) -> Result<Moved, AllocError>
    requires room { length (T.nodes store.now) ≤ 2 ^ 32 - 12 }
    requires fits { FitsTable (T.nodes store.now) state.now }
    ensures step { Leaves 4 (steps.shr_step dst (symbols.node_in state.old dst) by (T.nodes store.old)
        (symbols.with_touch None state.old)) result (T.nodes store.old) (T.nodes store.new) state.old state.new }
    ensures fixed { T.fixed store.new ≡ T.fixed store.old }
{
    let value = Form::Shr {
        x: state.register(dst),
        k: by.bits(),
    };
    result_and_zero(state, store, None, dst, value)
}

/// `shrd`: what is left of the low word, and what moves in from the high one
#[tactic(auto, using(crate::proofs::StepRules::fitting))]
pub(crate) fn shift_double<T: Interner>(
    state: &mut SymState,
    store: &mut T,
    dst: Reg,
    src: Reg,
    by: ShiftCount,
) -> Result<Moved, AllocError>
    requires room { length (T.nodes store.now) ≤ 2 ^ 32 - 12 }
    requires fits { FitsTable (T.nodes store.now) state.now }
    ensures step { Leaves 4 (steps.shrd_step dst (symbols.node_in state.old dst) (symbols.node_in state.old src) by
        (T.nodes store.old) (symbols.with_touch None state.old)) result (T.nodes store.old) (T.nodes store.new)
        state.old state.new }
    ensures fixed { T.fixed store.new ≡ T.fixed store.old }
{
    let x = state.register(dst);
    let high = moved_in(state.alloc(), by, state.register(src))?;
    let low = Form::Shr {
        x,
        k: shift_bits(by),
    };
    sum_of_two(state, store, dst, low, high)
}

/// `shlx`, which is stuck where the count is no constant
#[tactic(auto, using(crate::proofs::StepRules::fitting))]
pub(crate) fn shift_left_by<T: Interner>(
    state: &mut SymState,
    store: &mut T,
    touch: Option<Touch>,
    dst: Reg,
    count: Reg,
    source: u32,
) -> Result<Moved, AllocError>
    requires room { length (T.nodes store.now) ≤ 2 ^ 32 - 8 }
    requires fits { FitsTable (T.nodes store.now) state.now }
    requires inside { source < length (T.nodes store.now) }
    ensures step { Leaves 3 (steps.shlx_step dst (symbols.node_in state.old count) source (T.nodes store.old)
        (symbols.with_touch touch state.old)) result (T.nodes store.old) (T.nodes store.new) state.old state.new }
    ensures fixed { T.fixed store.new ≡ T.fixed store.old }
{
    let Some(k) = constant_count(store, state.register(count)) else {
        return Ok(Moved::Stuck);
    };
    let value = lin1(state.alloc(), 0, times(1 << k, source))?;
    result_only(state, store, touch, dst, value)
}

/// A shift to the right; by 0 it is the node itself.
#[tactic(auto, unfolding(crate::specs::Steps::shifted_right), using(crate::proofs::StepRules::fitting))]
fn shifted_right<T: Interner>(
    state: &mut SymState,
    store: &mut T,
    touch: Option<Touch>,
    dst: Reg,
    source: u32,
    k: u8,
) -> Result<Moved, AllocError>
    requires room { length (T.nodes store.now) ≤ 2 ^ 32 - 8 }
    requires count { k < 64 }
    requires inside { source < length (T.nodes store.now) }
    ensures step { Leaves 3 (steps.shifted_right dst source k (T.nodes store.old) (symbols.with_touch touch state.old))
        result (T.nodes store.old) (T.nodes store.new) state.old state.new }
    ensures fixed { T.fixed store.new ≡ T.fixed store.old }
{
    if k == 0 {
        state.set_touch(touch);
        state.set_register(dst, source);
        return Ok(Moved::Done);
    }
    result_only(state, store, touch, dst, Form::Shr { x: source, k })
}

/// `shrx`, which is stuck where the count is no constant
#[tactic(auto, using(crate::proofs::StepRules::fitting))]
pub(crate) fn shift_right_by<T: Interner>(
    state: &mut SymState,
    store: &mut T,
    touch: Option<Touch>,
    dst: Reg,
    count: Reg,
    source: u32,
) -> Result<Moved, AllocError>
    requires room { length (T.nodes store.now) ≤ 2 ^ 32 - 8 }
    requires fits { FitsTable (T.nodes store.now) state.now }
    requires inside { source < length (T.nodes store.now) }
    ensures step { Leaves 3 (steps.shrx_step dst (symbols.node_in state.old count) source (T.nodes store.old)
        (symbols.with_touch touch state.old)) result (T.nodes store.old) (T.nodes store.new) state.old state.new }
    ensures fixed { T.fixed store.new ≡ T.fixed store.old }
{
    match constant_count(store, state.register(count)) {
        Some(k) => shifted_right(state, store, touch, dst, source, k),
        None => Ok(Moved::Stuck),
    }
}
