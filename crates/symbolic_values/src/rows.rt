//! What the rows of several instructions write.

ghost use Rattle.std.specs.Prelude.{◌≡◌, ◌+◌, ◌-◌, ◌^◌, ◌<◌, ◌≤◌, [], ◌∷◌, length, IfOk, OnErr, None};
ghost use Rattle.terms.specs.Forms.{FormFits};
ghost use Rattle.terms.specs.Tables.{Prefix};
ghost use Rattle.program_nodes.specs.Terms as linear;
ghost use Rattle.symbolic_state.specs.Symbols as symbols;
ghost use Rattle.symbolic_values.specs.Moving.{IsStep, Leaves};
ghost use Rattle.symbolic_values.specs.Steps as steps;

use crate::moved::Moved;
use program_nodes::{make, plus, sum2};
use std::alloc::AllocError;
use symbolic_state::{SymState, Touch};
use term_store::Interner;
use terms::{Form, Nodes};
use x86_instr::Reg;

/// The node, where it is at most 1.
fn bit_node<T: Nodes>(store: &T, number: u32) -> Option<u32>
    requires { number < length (T.nodes store.now) }
    ensures { result ≡ steps.bit_node (T.nodes store.now) number }
{
    if store.node(number).high > 1 {
        return None;
    }
    Some(number)
}

/// Writes a result, its carry, and whether it is 0.
#[tactic(auto, unfolding(crate::specs::Steps::arithmetic), using(crate::proofs::StepRules::making))]
pub(crate) fn arithmetic<T: Interner>(
    state: &mut SymState,
    store: &mut T,
    touch: Option<Touch>,
    dst: Option<Reg>,
    value: Form,
    carry: Form,
) -> Result<Moved, AllocError>
    requires room { length (T.nodes store.now) ≤ 2 ^ 32 - 8 }
    requires value_fits { FormFits (T.nodes store.now) value }
    requires carry_fits { FormFits (T.nodes store.now) carry }
    ensures step { IfOk result (λ moved. IsStep moved (steps.arithmetic dst value carry (T.nodes store.old)
        (symbols.with_touch touch state.old)) (T.nodes store.new) state.old state.new) }
    ensures part { OnErr result (Prefix (T.nodes store.new) (steps.arithmetic dst value carry (T.nodes store.old)
        (symbols.with_touch touch state.old)).table) }
    ensures err { OnErr result (state.new ≡ state.old) }
    ensures grows { Prefix (T.nodes store.old) (T.nodes store.new) }
    ensures most { length (T.nodes store.new) ≤ length (T.nodes store.old) + 3 }
    ensures fixed { T.fixed store.new ≡ T.fixed store.old }
{
    let number = make(store, value)?;
    let cf = make(store, carry)?;
    let zf = make(store, Form::Zero(number))?;
    state.set_touch(touch);
    state.write(dst, number);
    state.set_flags(Some(cf), None, Some(zf));
    Ok(Moved::Done)
}

/// Writes a result by bits, with 0 as its carry and overflow, and whether it is 0.
#[tactic(auto, unfolding(crate::specs::Steps::logic), using(crate::proofs::StepRules::making))]
pub(crate) fn logic<T: Interner>(
    state: &mut SymState,
    store: &mut T,
    touch: Option<Touch>,
    dst: Option<Reg>,
    value: Form,
) -> Result<Moved, AllocError>
    requires room { length (T.nodes store.now) ≤ 2 ^ 32 - 8 }
    requires value_fits { FormFits (T.nodes store.now) value }
    ensures step { IfOk result (λ moved. IsStep moved (steps.logic dst value (T.nodes store.old)
        (symbols.with_touch touch state.old)) (T.nodes store.new) state.old state.new) }
    ensures part { OnErr result (Prefix (T.nodes store.new) (steps.logic dst value (T.nodes store.old)
        (symbols.with_touch touch state.old)).table) }
    ensures err { OnErr result (state.new ≡ state.old) }
    ensures grows { Prefix (T.nodes store.old) (T.nodes store.new) }
    ensures most { length (T.nodes store.new) ≤ length (T.nodes store.old) + 3 }
    ensures fixed { T.fixed store.new ≡ T.fixed store.old }
{
    let number = make(store, value)?;
    let cf = make(store, Form::Const(0))?;
    let zf = make(store, Form::Zero(number))?;
    state.set_touch(touch);
    state.write(dst, number);
    state.set_flags(Some(cf), Some(cf), Some(zf));
    Ok(Moved::Done)
}

/// Writes a result that changes no flag.
#[tactic(auto, unfolding(crate::specs::Steps::result_only))]
pub(crate) fn result_only<T: Interner>(
    state: &mut SymState,
    store: &mut T,
    touch: Option<Touch>,
    dst: Reg,
    value: Form,
) -> Result<Moved, AllocError>
    requires room { length (T.nodes store.now) ≤ 2 ^ 32 - 8 }
    requires value_fits { FormFits (T.nodes store.now) value }
    ensures step { Leaves 1 (steps.result_only dst value (T.nodes store.old) (symbols.with_touch touch state.old))
        result (T.nodes store.old) (T.nodes store.new) state.old state.new }
    ensures fixed { T.fixed store.new ≡ T.fixed store.old }
{
    let number = make(store, value)?;
    state.set_touch(touch);
    state.set_register(dst, number);
    Ok(Moved::Done)
}

/// Writes a result, whether it is 0, and a carry flag; the overflow flag is unknown.
#[tactic(auto, unfolding(crate::specs::Steps::result_and_zero), using(crate::proofs::StepRules::making))]
pub(crate) fn result_and_zero<T: Interner>(
    state: &mut SymState,
    store: &mut T,
    cf: Option<u32>,
    dst: Reg,
    value: Form,
) -> Result<Moved, AllocError>
    requires room { length (T.nodes store.now) ≤ 2 ^ 32 - 8 }
    requires value_fits { FormFits (T.nodes store.now) value }
    ensures step { Leaves 2 (steps.result_and_zero cf dst value (T.nodes store.old) (symbols.with_touch None state.old))
        result (T.nodes store.old) (T.nodes store.new) state.old state.new }
    ensures fixed { T.fixed store.new ≡ T.fixed store.old }
{
    let number = make(store, value)?;
    let zf = make(store, Form::Zero(number))?;
    state.set_touch(None);
    state.set_register(dst, number);
    state.set_flags(cf, None, Some(zf));
    Ok(Moved::Done)
}

/// Writes a result, a node that is the overflow flag where it is a bit, and whether the result is 0.
#[tactic(auto, unfolding(crate::specs::Steps::result_and_overflow), using(crate::proofs::StepRules::making))]
pub(crate) fn result_and_overflow<T: Interner>(
    state: &mut SymState,
    store: &mut T,
    dst: Reg,
    value: Form,
    overflow: Form,
) -> Result<Moved, AllocError>
    requires room { length (T.nodes store.now) ≤ 2 ^ 32 - 8 }
    requires value_fits { FormFits (T.nodes store.now) value }
    requires overflow_fits { FormFits (T.nodes store.now) overflow }
    ensures step { IfOk result (λ moved. IsStep moved (steps.result_and_overflow dst value overflow
        (T.nodes store.old) (symbols.with_touch None state.old)) (T.nodes store.new) state.old state.new) }
    ensures part { OnErr result (Prefix (T.nodes store.new) (steps.result_and_overflow dst value overflow
        (T.nodes store.old) (symbols.with_touch None state.old)).table) }
    ensures err { OnErr result (state.new ≡ state.old) }
    ensures grows { Prefix (T.nodes store.old) (T.nodes store.new) }
    ensures most { length (T.nodes store.new) ≤ length (T.nodes store.old) + 3 }
    ensures fixed { T.fixed store.new ≡ T.fixed store.old }
{
    let number = make(store, value)?;
    let bit = make(store, overflow)?;
    let zf = make(store, Form::Zero(number))?;
    let of = bit_node(store, bit);
    state.set_touch(None);
    state.set_register(dst, number);
    state.set_flags(state.carry(), of, Some(zf));
    Ok(Moved::Done)
}

/// Writes the sum of two nodes, and whether it is 0; the other flags are unknown.
#[tactic(auto, using(crate::proofs::StepRules::fitting))]
fn sum_of_nodes<T: Interner>(
    state: &mut SymState,
    store: &mut T,
    dst: Reg,
    a: u32,
    b: u32,
) -> Result<Moved, AllocError>
    requires room { length (T.nodes store.now) ≤ 2 ^ 32 - 8 }
    requires first { a < length (T.nodes store.now) }
    requires second { b < length (T.nodes store.now) }
    ensures step { Leaves 2 (steps.result_and_zero None dst (linear.sum (linear.plus a ∷ linear.plus b ∷ []))
        (T.nodes store.old) (symbols.with_touch None state.old)) result (T.nodes store.old) (T.nodes store.new)
        state.old state.new }
    ensures fixed { T.fixed store.new ≡ T.fixed store.old }
{
    let value = sum2(state.alloc(), plus(a), plus(b))?;
    result_and_zero(state, store, None, dst, value)
}

/// Writes the sum of two forms, which are made first, and whether it is 0; the other flags are unknown.
#[tactic(auto, unfolding(crate::specs::Steps::sum_of_two), using(crate::proofs::StepRules::fitting_several))]
pub(crate) fn sum_of_two<T: Interner>(
    state: &mut SymState,
    store: &mut T,
    dst: Reg,
    first: Form,
    second: Form,
) -> Result<Moved, AllocError>
    requires room { length (T.nodes store.now) ≤ 2 ^ 32 - 12 }
    requires first_fits { FormFits (T.nodes store.now) first }
    requires second_fits { FormFits (T.nodes store.now) second }
    ensures step { IfOk result (λ moved. IsStep moved (steps.sum_of_two dst first second
        (T.nodes store.old) (symbols.with_touch None state.old)) (T.nodes store.new) state.old state.new) }
    ensures part { OnErr result (Prefix (T.nodes store.new) (steps.sum_of_two dst first second
        (T.nodes store.old) (symbols.with_touch None state.old)).table) }
    ensures err { OnErr result (state.new ≡ state.old) }
    ensures grows { Prefix (T.nodes store.old) (T.nodes store.new) }
    ensures most { length (T.nodes store.new) ≤ length (T.nodes store.old) + 4 }
    ensures fixed { T.fixed store.new ≡ T.fixed store.old }
{
    let a = make(store, first)?;
    let b = make(store, second)?;
    sum_of_nodes(state, store, dst, a, b)
}

/// Clears the carry flag.
#[tactic(auto, unfolding(crate::specs::Steps::clc_step))]
pub(crate) fn clear_carry<T: Interner>(
    state: &mut SymState,
    store: &mut T,
) -> Result<Moved, AllocError>
    requires room { length (T.nodes store.now) ≤ 2 ^ 32 - 8 }
    ensures step { Leaves 1 (steps.clc_step (T.nodes store.old) (symbols.with_touch None state.old))
        result (T.nodes store.old) (T.nodes store.new) state.old state.new }
    ensures fixed { T.fixed store.new ≡ T.fixed store.old }
{
    let number = make(store, Form::Const(0))?;
    state.set_touch(None);
    state.set_carry(number);
    Ok(Moved::Done)
}

/// Writes a sum and its carry, which goes to the carry flag alone.
#[tactic(auto, unfolding(crate::specs::Steps::chained), using(crate::proofs::StepRules::making))]
pub(crate) fn chained_by_carry<T: Interner>(
    state: &mut SymState,
    store: &mut T,
    touch: Option<Touch>,
    dst: Reg,
    value: Form,
    carry: Form,
) -> Result<Moved, AllocError>
    requires room { length (T.nodes store.now) ≤ 2 ^ 32 - 8 }
    requires value_fits { FormFits (T.nodes store.now) value }
    requires carry_fits { FormFits (T.nodes store.now) carry }
    ensures step { Leaves 2 (steps.chained symbols.with_cf dst value carry (T.nodes store.old)
        (symbols.with_touch touch state.old)) result (T.nodes store.old) (T.nodes store.new) state.old state.new }
    ensures fixed { T.fixed store.new ≡ T.fixed store.old }
{
    let number = make(store, value)?;
    let cf = make(store, carry)?;
    state.set_touch(touch);
    state.set_register(dst, number);
    state.set_carry(cf);
    Ok(Moved::Done)
}

/// The same with the overflow flag.
#[tactic(auto, unfolding(crate::specs::Steps::chained), using(crate::proofs::StepRules::making))]
pub(crate) fn chained_by_overflow<T: Interner>(
    state: &mut SymState,
    store: &mut T,
    touch: Option<Touch>,
    dst: Reg,
    value: Form,
    carry: Form,
) -> Result<Moved, AllocError>
    requires room { length (T.nodes store.now) ≤ 2 ^ 32 - 8 }
    requires value_fits { FormFits (T.nodes store.now) value }
    requires carry_fits { FormFits (T.nodes store.now) carry }
    ensures step { Leaves 2 (steps.chained symbols.with_of dst value carry (T.nodes store.old)
        (symbols.with_touch touch state.old)) result (T.nodes store.old) (T.nodes store.new) state.old state.new }
    ensures fixed { T.fixed store.new ≡ T.fixed store.old }
{
    let number = make(store, value)?;
    let of = make(store, carry)?;
    state.set_touch(touch);
    state.set_register(dst, number);
    state.set_overflow(of);
    Ok(Moved::Done)
}
