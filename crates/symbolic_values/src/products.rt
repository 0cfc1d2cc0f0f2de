//! The rows of products: `mulx`, `mul` and `imul`.

ghost use Rattle.std.specs.Prelude.{◌≡◌, ◌-◌, ◌^◌, ◌<◌, ◌≤◌, length};
ghost use Rattle.x86_instr.specs.declared.operand.Reg.TheVariants.{Rax, Rdx};
ghost use Rattle.symbolic_state.specs.Fitting.{FitsTable};
ghost use Rattle.symbolic_state.specs.Symbols as symbols;
ghost use Rattle.symbolic_values.specs.Moving.{Leaves};
ghost use Rattle.symbolic_values.specs.Steps as steps;

use crate::moved::Moved;
use program_nodes::make;
use std::alloc::AllocError;
use symbolic_state::{SymState, Touch};
use term_store::Interner;
use terms::Form;
use x86_instr::Reg;

/// `mulx`: `rdx` times the source
#[tactic(auto, unfolding(crate::specs::Steps::mulx_step), using(crate::proofs::StepRules::fitting_several))]
pub(crate) fn multiply_to<T: Interner>(
    state: &mut SymState,
    store: &mut T,
    touch: Option<Touch>,
    hi: Reg,
    lo: Reg,
    source: u32,
) -> Result<Moved, AllocError>
    requires room { length (T.nodes store.now) ≤ 2 ^ 32 - 8 }
    requires fits { FitsTable (T.nodes store.now) state.now }
    requires inside { source < length (T.nodes store.now) }
    ensures step { Leaves 3 (steps.mulx_step hi lo (symbols.node_in state.old Rdx) source (T.nodes store.old)
        (symbols.with_touch touch state.old)) result (T.nodes store.old) (T.nodes store.new) state.old state.new }
    ensures fixed { T.fixed store.new ≡ T.fixed store.old }
{
    let other = state.register(Reg::Rdx);
    let low = make(store, Form::MulLo(other, source))?;
    let high = make(store, Form::MulHi(other, source))?;
    state.set_touch(touch);
    state.set_register(lo, low);
    state.set_register(hi, high);
    Ok(Moved::Done)
}

/// `mul`: `rax` times the source
#[tactic(auto, unfolding(crate::specs::Steps::mul_step), using(crate::proofs::StepRules::fitting_several))]
pub(crate) fn multiply<T: Interner>(
    state: &mut SymState,
    store: &mut T,
    touch: Option<Touch>,
    source: u32,
) -> Result<Moved, AllocError>
    requires room { length (T.nodes store.now) ≤ 2 ^ 32 - 8 }
    requires fits { FitsTable (T.nodes store.now) state.now }
    requires inside { source < length (T.nodes store.now) }
    ensures step { Leaves 3 (steps.mul_step (symbols.node_in state.old Rax) source (T.nodes store.old)
        (symbols.with_touch touch state.old)) result (T.nodes store.old) (T.nodes store.new) state.old state.new }
    ensures fixed { T.fixed store.new ≡ T.fixed store.old }
{
    let other = state.register(Reg::Rax);
    let low = make(store, Form::MulLo(other, source))?;
    let high = make(store, Form::MulHi(other, source))?;
    state.set_touch(touch);
    state.set_register(Reg::Rdx, high);
    state.set_register(Reg::Rax, low);
    state.set_flags(None, None, None);
    Ok(Moved::Done)
}

/// `imul`
#[tactic(auto, unfolding(crate::specs::Steps::imul_step), using(crate::proofs::StepRules::fitting))]
pub(crate) fn multiply_low<T: Interner>(
    state: &mut SymState,
    store: &mut T,
    touch: Option<Touch>,
    dst: Reg,
    source: u32,
) -> Result<Moved, AllocError>
    requires room { length (T.nodes store.now) ≤ 2 ^ 32 - 8 }
    requires fits { FitsTable (T.nodes store.now) state.now }
    requires inside { source < length (T.nodes store.now) }
    ensures step { Leaves 3 (steps.imul_step dst (symbols.node_in state.old dst) source (T.nodes store.old)
        (symbols.with_touch touch state.old)) result (T.nodes store.old) (T.nodes store.new) state.old state.new }
    ensures fixed { T.fixed store.new ≡ T.fixed store.old }
{
    let low = make(store, Form::MulLo(state.register(dst), source))?;
    state.set_touch(touch);
    state.set_register(dst, low);
    state.set_flags(None, None, None);
    Ok(Moved::Done)
}
