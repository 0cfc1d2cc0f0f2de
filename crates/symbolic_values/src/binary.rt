//! The rows of the instructions with a destination register and a source.

ghost use Rattle.std.specs.Prelude.{◌≡◌, ◌-◌, ◌^◌, ◌<◌, ◌≤◌, length};
ghost use Rattle.x86_instr.specs.declared.instr.Bin.TheVariants.{Add, Adc, Sub, Sbb, Cmp};
ghost use Rattle.symbolic_state.specs.Fitting.{FitsTable};
ghost use Rattle.symbolic_state.specs.Symbols as symbols;
ghost use Rattle.symbolic_values.specs.Moving.{Leaves};
ghost use Rattle.symbolic_values.specs.Steps as steps;

use crate::moved::Moved;
use crate::rows::{arithmetic, logic};
use program_nodes::{borrow1, borrow2, carry2, carry3, minus, plus, sum2, sum3};
use std::alloc::AllocError;
use symbolic_state::{SymState, Touch};
use term_store::Interner;
use terms::Form;
use x86_instr::{Bin, Reg};

/// `add`
#[tactic(auto, using(crate::proofs::StepRules::fitting))]
fn add<T: Interner>(
    state: &mut SymState,
    store: &mut T,
    touch: Option<Touch>,
    dst: Reg,
    source: u32,
) -> Result<Moved, AllocError>
    requires room { length (T.nodes store.now) ≤ 2 ^ 32 - 8 }
    requires fits { FitsTable (T.nodes store.now) state.now }
    requires inside { source < length (T.nodes store.now) }
    ensures step { Leaves 3 (steps.bin_step Add dst (symbols.node_in state.old dst) source (T.nodes store.old)
        (symbols.with_touch touch state.old)) result (T.nodes store.old) (T.nodes store.new) state.old state.new }
    ensures fixed { T.fixed store.new ≡ T.fixed store.old }
{
    let alloc = state.alloc();
    let old = state.register(dst);
    let value = sum2(alloc, plus(old), plus(source))?;
    let carry = carry2(alloc, old, source)?;
    arithmetic(state, store, touch, Some(dst), value, carry)
}

/// `adc`, which is stuck where the carry flag is unknown
#[tactic(auto, using(crate::proofs::StepRules::fitting))]
fn add_with_carry<T: Interner>(
    state: &mut SymState,
    store: &mut T,
    touch: Option<Touch>,
    dst: Reg,
    source: u32,
) -> Result<Moved, AllocError>
    requires room { length (T.nodes store.now) ≤ 2 ^ 32 - 8 }
    requires fits { FitsTable (T.nodes store.now) state.now }
    requires inside { source < length (T.nodes store.now) }
    ensures step { Leaves 3 (steps.bin_step Adc dst (symbols.node_in state.old dst) source (T.nodes store.old)
        (symbols.with_touch touch state.old)) result (T.nodes store.old) (T.nodes store.new) state.old state.new }
    ensures fixed { T.fixed store.new ≡ T.fixed store.old }
{
    let Some(flag) = state.carry() else {
        return Ok(Moved::Stuck);
    };
    let alloc = state.alloc();
    let old = state.register(dst);
    let value = sum3(alloc, plus(old), plus(source), plus(flag))?;
    let carry = carry3(alloc, old, source, flag)?;
    arithmetic(state, store, touch, Some(dst), value, carry)
}

/// `sub`
#[tactic(auto, using(crate::proofs::StepRules::fitting))]
fn subtract<T: Interner>(
    state: &mut SymState,
    store: &mut T,
    touch: Option<Touch>,
    dst: Reg,
    source: u32,
) -> Result<Moved, AllocError>
    requires room { length (T.nodes store.now) ≤ 2 ^ 32 - 8 }
    requires fits { FitsTable (T.nodes store.now) state.now }
    requires inside { source < length (T.nodes store.now) }
    ensures step { Leaves 3 (steps.bin_step Sub dst (symbols.node_in state.old dst) source (T.nodes store.old)
        (symbols.with_touch touch state.old)) result (T.nodes store.old) (T.nodes store.new) state.old state.new }
    ensures fixed { T.fixed store.new ≡ T.fixed store.old }
{
    let alloc = state.alloc();
    let old = state.register(dst);
    let value = sum2(alloc, plus(old), minus(source))?;
    let carry = borrow1(alloc, old, source)?;
    arithmetic(state, store, touch, Some(dst), value, carry)
}

/// `sbb`, which is stuck where the carry flag is unknown
#[tactic(auto, using(crate::proofs::StepRules::fitting))]
fn subtract_with_borrow<T: Interner>(
    state: &mut SymState,
    store: &mut T,
    touch: Option<Touch>,
    dst: Reg,
    source: u32,
) -> Result<Moved, AllocError>
    requires room { length (T.nodes store.now) ≤ 2 ^ 32 - 8 }
    requires fits { FitsTable (T.nodes store.now) state.now }
    requires inside { source < length (T.nodes store.now) }
    ensures step { Leaves 3 (steps.bin_step Sbb dst (symbols.node_in state.old dst) source (T.nodes store.old)
        (symbols.with_touch touch state.old)) result (T.nodes store.old) (T.nodes store.new) state.old state.new }
    ensures fixed { T.fixed store.new ≡ T.fixed store.old }
{
    let Some(flag) = state.carry() else {
        return Ok(Moved::Stuck);
    };
    let alloc = state.alloc();
    let old = state.register(dst);
    let value = sum3(alloc, plus(old), minus(source), minus(flag))?;
    let carry = borrow2(alloc, old, source, flag)?;
    arithmetic(state, store, touch, Some(dst), value, carry)
}

/// `cmp`
#[tactic(auto, using(crate::proofs::StepRules::fitting))]
fn compare<T: Interner>(
    state: &mut SymState,
    store: &mut T,
    touch: Option<Touch>,
    dst: Reg,
    source: u32,
) -> Result<Moved, AllocError>
    requires room { length (T.nodes store.now) ≤ 2 ^ 32 - 8 }
    requires fits { FitsTable (T.nodes store.now) state.now }
    requires inside { source < length (T.nodes store.now) }
    ensures step { Leaves 3 (steps.bin_step Cmp dst (symbols.node_in state.old dst) source (T.nodes store.old)
        (symbols.with_touch touch state.old)) result (T.nodes store.old) (T.nodes store.new) state.old state.new }
    ensures fixed { T.fixed store.new ≡ T.fixed store.old }
{
    let alloc = state.alloc();
    let old = state.register(dst);
    let value = sum2(alloc, plus(old), minus(source))?;
    let carry = borrow1(alloc, old, source)?;
    arithmetic(state, store, touch, None, value, carry)
}

/// An operation on a destination register and the node of a source.
#[tactic(auto, using(crate::proofs::StepRules::fitting))]
pub(crate) fn binary_row<T: Interner>(
    state: &mut SymState,
    store: &mut T,
    touch: Option<Touch>,
    op: Bin,
    dst: Reg,
    source: u32,
) -> Result<Moved, AllocError>
    requires room { length (T.nodes store.now) ≤ 2 ^ 32 - 8 }
    requires fits { FitsTable (T.nodes store.now) state.now }
    requires inside { source < length (T.nodes store.now) }
    ensures step { Leaves 3 (steps.bin_step op dst (symbols.node_in state.old dst) source (T.nodes store.old)
        (symbols.with_touch touch state.old)) result (T.nodes store.old) (T.nodes store.new) state.old state.new }
    ensures fixed { T.fixed store.new ≡ T.fixed store.old }
{
    let old = state.register(dst);
    match op {
        Bin::Add => add(state, store, touch, dst, source),
        Bin::Adc => add_with_carry(state, store, touch, dst, source),
        Bin::Sub => subtract(state, store, touch, dst, source),
        Bin::Sbb => subtract_with_borrow(state, store, touch, dst, source),
        Bin::And => logic(state, store, touch, Some(dst), Form::And(old, source)),
        Bin::Or => logic(state, store, touch, Some(dst), Form::Or(old, source)),
        Bin::Xor => logic(state, store, touch, Some(dst), Form::Xor(old, source)),
        Bin::Cmp => compare(state, store, touch, dst, source),
    }
}
