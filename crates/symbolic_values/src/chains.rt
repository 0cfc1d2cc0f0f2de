//! The rows of the two carry chains: `adcx` and `adox`.

ghost use Rattle.std.specs.Prelude.{◌≡◌, ◌-◌, ◌^◌, ◌<◌, ◌≤◌, length};
ghost use Rattle.symbolic_state.specs.Fitting.{FitsTable};
ghost use Rattle.symbolic_state.specs.Symbols as symbols;
ghost use Rattle.symbolic_values.specs.Moving.{Leaves};
ghost use Rattle.symbolic_values.specs.Steps as steps;

use crate::moved::Moved;
use crate::rows::{chained_by_carry, chained_by_overflow};
use program_nodes::{carry3, plus, sum3};
use std::alloc::AllocError;
use symbolic_state::{SymState, Touch};
use term_store::Interner;
use x86_instr::{Cond, Reg};

/// `adcx`, which is stuck where the carry flag is unknown
#[tactic(auto, using(crate::proofs::StepRules::fitting))]
pub(crate) fn add_by_carry<T: Interner>(
    state: &mut SymState,
    store: &mut T,
    touch: Option<Touch>,
    dst: Reg,
    source: u32,
) -> Result<Moved, AllocError>
    requires room { length (T.nodes store.now) ≤ 2 ^ 32 - 8 }
    requires fits { FitsTable (T.nodes store.now) state.now }
    requires inside { source < length (T.nodes store.now) }
    ensures step { Leaves 3 (steps.adcx_step dst (symbols.node_in state.old dst) source (T.nodes store.old)
        (symbols.with_touch touch state.old)) result (T.nodes store.old) (T.nodes store.new) state.old state.new }
    ensures fixed { T.fixed store.new ≡ T.fixed store.old }
{
    let Some(flag) = state.carry() else {
        return Ok(Moved::Stuck);
    };
    let alloc = state.alloc();
    let old = state.register(dst);
    let value = sum3(alloc, plus(old), plus(source), plus(flag))?;
    let carry = carry3(alloc, old, source, flag)?;
    chained_by_carry(state, store, touch, dst, value, carry)
}

/// `adox`, which is stuck where the overflow flag is unknown
#[tactic(auto, using(crate::proofs::StepRules::fitting))]
pub(crate) fn add_by_overflow<T: Interner>(
    state: &mut SymState,
    store: &mut T,
    touch: Option<Touch>,
    dst: Reg,
    source: u32,
) -> Result<Moved, AllocError>
    requires room { length (T.nodes store.now) ≤ 2 ^ 32 - 8 }
    requires fits { FitsTable (T.nodes store.now) state.now }
    requires inside { source < length (T.nodes store.now) }
    ensures step { Leaves 3 (steps.adox_step dst (symbols.node_in state.old dst) source (T.nodes store.old)
        (symbols.with_touch touch state.old)) result (T.nodes store.old) (T.nodes store.new) state.old state.new }
    ensures fixed { T.fixed store.new ≡ T.fixed store.old }
{
    let Some(flag) = state.condition(Cond::O) else {
        return Ok(Moved::Stuck);
    };
    let alloc = state.alloc();
    let old = state.register(dst);
    let value = sum3(alloc, plus(old), plus(source), plus(flag))?;
    let carry = carry3(alloc, old, source, flag)?;
    chained_by_overflow(state, store, touch, dst, value, carry)
}
