//! The rows of the instructions on conditions and on low bytes: `setcc`, `cmovcc` and `movzx`.

ghost use Rattle.std.specs.Prelude.{◌≡◌, ◌-◌, ◌^◌, ◌<◌, ◌≤◌, length, None};
ghost use Rattle.terms.specs.Tables.{node_at};
ghost use Rattle.symbolic_state.specs.Fitting.{FitsTable};
ghost use Rattle.symbolic_state.specs.Symbols as symbols;
ghost use Rattle.symbolic_values.specs.Moving.{Leaves};
ghost use Rattle.symbolic_values.specs.Steps as steps;

use crate::moved::Moved;
use crate::rows::result_only;
use program_nodes::{lin1, make, minus};
use std::alloc::AllocError;
use symbolic_state::{SymState, Touch};
use term_store::Interner;
use terms::{Form, NodeKind, Nodes};
use x86_instr::{Cond, Reg};

/// Whether the condition is that its flag is clear.
fn is_negated(cond: Cond) -> bool
    ensures { result ≡ steps.is_negated cond }
{
    match cond {
        Cond::O | Cond::C | Cond::Z => false,
        Cond::No | Cond::Nc | Cond::Nz => true,
    }
}

/// The source where the condition holds on its flag's node, and else the destination.
fn select_by(negated: bool, flag: u32, old: u32, source: u32) -> Form
    ensures { result ≡ steps.select_by negated flag old source }
{
    if negated {
        return Form::Select {
            c: flag,
            x: source,
            y: old,
        };
    }
    Form::Select {
        c: flag,
        x: old,
        y: source,
    }
}

/// The node whose low byte another one was given, where it is a byte.
fn byte_of<T: Nodes>(store: &T, number: u32) -> Option<u32>
    requires { number < length (T.nodes store.now) }
    ensures byte { result ≡ steps.byte_of (T.nodes store.now) (node_at (T.nodes store.now) number).kind }
{
    let _count = store.count();
    let NodeKind::SetB { v: _, b } = &store.node(number).kind else {
        return None;
    };
    if store.node(*b).high > 255 {
        return None;
    }
    Some(*b)
}

/// Puts a bit, or its complement, into the low byte of a register.
#[tactic(auto, unfolding(crate::specs::Steps::set_by), using(crate::proofs::StepRules::fitting_later))]
fn set_by<T: Interner>(
    state: &mut SymState,
    store: &mut T,
    negated: bool,
    dst: Reg,
    flag: u32,
) -> Result<Moved, AllocError>
    requires room { length (T.nodes store.now) ≤ 2 ^ 32 - 12 }
    requires fits { FitsTable (T.nodes store.now) state.now }
    requires inside { flag < length (T.nodes store.now) }
    ensures step { Leaves 4 (steps.set_by negated dst (symbols.node_in state.old dst) flag (T.nodes store.old)
        (symbols.with_touch None state.old)) result (T.nodes store.old) (T.nodes store.new) state.old state.new }
    ensures fixed { T.fixed store.new ≡ T.fixed store.old }
{
    let old = state.register(dst);
    if negated {
        let complement = lin1(state.alloc(), 1, minus(flag))?;
        let clear = make(store, complement)?;
        return result_only(state, store, None, dst, Form::SetB { v: old, b: clear });
    }
    result_only(state, store, None, dst, Form::SetB { v: old, b: flag })
}

/// `setcc`, which is stuck where the flag is unknown
#[tactic(auto, using(crate::proofs::StepRules::fitting))]
pub(crate) fn set_condition<T: Interner>(
    state: &mut SymState,
    store: &mut T,
    cond: Cond,
    dst: Reg,
) -> Result<Moved, AllocError>
    requires room { length (T.nodes store.now) ≤ 2 ^ 32 - 12 }
    requires fits { FitsTable (T.nodes store.now) state.now }
    ensures step { Leaves 4 (steps.set_step cond dst (symbols.node_in state.old dst) (T.nodes store.old)
        (symbols.with_touch None state.old)) result (T.nodes store.old) (T.nodes store.new) state.old state.new }
    ensures fixed { T.fixed store.new ≡ T.fixed store.old }
{
    match state.condition(cond) {
        Some(flag) => set_by(state, store, is_negated(cond), dst, flag),
        None => Ok(Moved::Stuck),
    }
}

/// `cmovcc`, which is stuck where the flag is unknown
#[tactic(auto, using(crate::proofs::StepRules::fitting))]
pub(crate) fn move_on_condition<T: Interner>(
    state: &mut SymState,
    store: &mut T,
    touch: Option<Touch>,
    cond: Cond,
    dst: Reg,
    source: u32,
) -> Result<Moved, AllocError>
    requires room { length (T.nodes store.now) ≤ 2 ^ 32 - 8 }
    requires fits { FitsTable (T.nodes store.now) state.now }
    requires inside { source < length (T.nodes store.now) }
    ensures step { Leaves 3 (steps.cmov_step cond dst (symbols.node_in state.old dst) source (T.nodes store.old)
        (symbols.with_touch touch state.old)) result (T.nodes store.old) (T.nodes store.new) state.old state.new }
    ensures fixed { T.fixed store.new ≡ T.fixed store.old }
{
    let Some(flag) = state.condition(cond) else {
        return Ok(Moved::Stuck);
    };
    let value = select_by(is_negated(cond), flag, state.register(dst), source);
    result_only(state, store, touch, dst, value)
}

/// `movzx`
#[tactic(auto, unfolding(crate::specs::Steps::movzx_step), using(crate::proofs::StepRules::fitting_later))]
pub(crate) fn low_byte<T: Interner>(
    state: &mut SymState,
    store: &mut T,
    dst: Reg,
    src: Reg,
) -> Result<Moved, AllocError>
    requires room { length (T.nodes store.now) ≤ 2 ^ 32 - 12 }
    requires fits { FitsTable (T.nodes store.now) state.now }
    ensures step { Leaves 4 (steps.movzx_step dst (symbols.node_in state.old src) (T.nodes store.old)
        (symbols.with_touch None state.old)) result (T.nodes store.old) (T.nodes store.new) state.old state.new }
    ensures fixed { T.fixed store.new ≡ T.fixed store.old }
{
    let source = state.register(src);
    if let Some(byte) = byte_of(store, source) {
        state.set_touch(None);
        state.set_register(dst, byte);
        return Ok(Moved::Done);
    }
    let mask = make(store, Form::Const(255))?;
    result_only(state, store, None, dst, Form::And(source, mask))
}
