ghost use Rattle.std.specs.Prelude.{◌≡◌, ◌+◌, ◌*◌, ◌-◌, ◌^◌, ◌<◌, ◌≤◌, [], length, IfOk, OnErr};
ghost use Rattle.base.specs.declared.limits.TheConstants.{MAX_LINES};
ghost use Rattle.terms.specs.Tables.{Prefix};
ghost use Rattle.term_store.specs.Indexed.{joined_nodes};
ghost use Rattle.symbolic_state.specs.Fitting.{FitsTable};
ghost use Rattle.program_nodes.specs.Sources.{source_made};
ghost use Rattle.equiv_validator.specs.Checks.{Ran};
ghost use Rattle.equiv_validator.specs.Ended.{HasShapeAtEnd, IsEnding};
ghost use Rattle.equiv_validator.specs.Runs.{run_from, run_of};

use crate::prepared::Prepared;
use std::alloc::{AllocError, Global};
use symbolic_state::{SymState, start};
use symbolic_values::{Moved, sym_step};
use term_store::{Interner, Tail};
use x86_instr::{Line, Listing};

/// Runs lines on a state and a table, from the first one to `ret`. The answer is the line, counted from 1, at which the
/// run is stuck. The one error is want of memory, after which the table is a first part of the one that the whole run
/// leaves.
pub fn run<T: Interner>(
    store: &mut T,
    state: &mut SymState,
    lines: &[Line],
) -> Result<Option<u32>, AllocError>
    requires few { length lines.now ≤ MAX_LINES }
    requires room { length (T.nodes store.now) ≤ 2 ^ 31 }
    requires fits { FitsTable (T.nodes store.now) state.now }
    ensures run { IfOk result (λ stuck. Ran stuck state.new (T.nodes store.new)
        (run_from 1 lines.entry.now (T.nodes store.old) state.old)) }
    ensures part { OnErr result (Prefix (T.nodes store.new)
        (run_from 1 lines.entry.now (T.nodes store.old) state.old).table) }
    ensures grows { Prefix (T.nodes store.old) (T.nodes store.new) }
    ensures fixed { T.fixed store.new ≡ T.fixed store.old }
{
    let mut number = 1;
    for line in lines {
        if line.instr.is_ret() {
            return Ok(None);
        }
        match sym_step(state, store, line)? {
            Moved::Done => {}
            Moved::Stuck => return Ok(Some(number)),
        }
        number += 1;
    }
    Ok(Some(number))
}

/// How the symbolic run of a listing ends.
#[derive(Drop)]
pub enum Ending {
    /// It is stuck at this line, counted from 1.
    Stuck(u32),
    /// It comes to `ret` in this state.
    Ended(SymState),
}

/// Runs a listing for a program, on the program's nodes and a tail that has none of its own. The one error is want of
/// memory, after which the tail's table is a first part of the one that the whole run leaves.
#[tactic(auto, using(crate::proofs::AtEnd::few_nodes))]
pub fn run_listing(
    alloc: Global,
    prepared: &Prepared,
    tail: &mut Tail<'_>,
    listing: &Listing,
) -> Result<Ending, AllocError>
    requires base { tail.now.base ≡ (source_made prepared.now).table }
    requires empty { tail.now.own ≡ [] }
    ensures run { IfOk result (λ ending. IsEnding ending (joined_nodes tail.new)
        (run_of prepared.entry.now listing.entry.now.lines)) }
    ensures part { OnErr result (Prefix (joined_nodes tail.new)
        (run_of prepared.entry.now listing.entry.now.lines).table) }
    ensures base { tail.new.base ≡ tail.old.base }
    ensures shape { IfOk result (HasShapeAtEnd prepared.entry.now listing.entry.now.lines) }
{
    let _ = prepared.program().params();
    let mut state = start(alloc, tail, prepared.program(), listing.frame())?;
    match run(tail, &mut state, listing.lines())? {
        Some(line) => Ok(Ending::Stuck(line)),
        None => Ok(Ending::Ended(state)),
    }
}
