//! The opening of a journal.
ghost use Rattle.std.specs.Prelude.{◌≡◌, IfOk, MatchResult};
ghost use Rattle.op_order.specs.Plans.{opening_of};
ghost use Rattle.journal_rules.specs.Backed.{plain_cost};
ghost use Rattle.journal_replay.specs.Inside.{IsOpeningFault};

use crate::fault::ReplayFault;
use cost_table::cost;
use op_order::Plan;
use plain_lower::plain;
use std::alloc::{AllocError, Global};
use word_program::Program;

/// What the plain listing of the opening plan costs.
#[tactic(auto, unfolding(journal_rules::specs::Backed::plain_cost))]
fn opening_cost(alloc: Global, program: &Program) -> Result<u64, AllocError>
    ensures { IfOk result (λ cost. cost ≡ plain_cost program.now (opening_of program.now)) }
{
    let plan = Plan::opening(alloc, program)?;
    let listing = plain(alloc, program, &plan)?;
    Ok(cost(&listing))
}

/// Whether this is what the plain listing of the opening plan costs.
pub fn check_opening(alloc: Global, program: &Program, recorded: u64) -> Result<(), ReplayFault>
    ensures { MatchResult result (λ _. recorded ≡ plain_cost program.now (opening_of program.now))
        (IsOpeningFault program.now recorded) }
{
    let Ok(table) = opening_cost(alloc, program) else {
        return Err(ReplayFault::Memory);
    };
    if recorded != table {
        return Err(ReplayFault::Cost { recorded, table });
    }
    Ok(())
}
