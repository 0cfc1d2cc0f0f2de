//! The row of stores to the memory.

ghost use Rattle.std.specs.Prelude.{◌≡◌, ◌-◌, ◌^◌, ◌≤◌, length, None};
ghost use Rattle.symbolic_state.specs.Fitting.{FitsTable};
ghost use Rattle.symbolic_state.specs.Symbols as symbols;
ghost use Rattle.symbolic_values.specs.Moving.{Leaves};
ghost use Rattle.symbolic_values.specs.Steps as steps;

use crate::moved::Moved;
use program_nodes::make;
use std::alloc::AllocError;
use symbolic_state::SymState;
use term_store::Interner;
use x86_instr::{Mem, Reg};

/// Stores the node of a register. Stuck exactly where the address names no cell that is to be written.
#[tactic(auto, unfolding(crate::specs::Steps::store_step), using(crate::proofs::StepRules::fetching))]
pub(crate) fn store_word<T: Interner>(
    state: &mut SymState,
    store: &mut T,
    mem: Mem,
    src: Reg,
) -> Result<Moved, AllocError>
    requires room { length (T.nodes store.now) ≤ 2 ^ 32 - 8 }
    requires fits { FitsTable (T.nodes store.now) state.now }
    ensures step { Leaves 1 (steps.store_step (T.nodes store.old) (symbols.with_touch None state.old) mem
        (symbols.node_in state.old src)) result (T.nodes store.old) (T.nodes store.new) state.old state.new }
    ensures fixed { T.fixed store.new ≡ T.fixed store.old }
{
    let address = make(store, state.address(mem)?)?;
    let Some(cell) = state.cell_named(store, address) else {
        return Ok(Moved::Stuck);
    };
    let touch = state.touch_of(true, &cell);
    if !state.store_node(&cell, state.register(src)) {
        return Ok(Moved::Stuck);
    }
    state.set_touch(Some(touch));
    Ok(Moved::Done)
}
