ghost use Rattle.std.specs.Prelude.{IfOk};
ghost use Rattle.op_order.specs.Legal.{IsLegal};
ghost use Rattle.fast_lower.specs.Fast.{IsFast};

use crate::claims::is_fast;
use crate::fall_back_listing::fall_back;
use forward_pass::lowered;
use op_order::Plan;
use std::alloc::{AllocError, Global};
use word_program::Program;
use x86_instr::Listing;

/// A fast listing of a legal plan. Whatever the pass over the plan gives is tested first, and where that is no fast
/// listing, it is the fall-back. The one error is want of memory.
pub fn fast(alloc: Global, program: &Program, plan: &Plan) -> Result<Listing, AllocError>
    requires { IsLegal program.now plan.now.slots }
    ensures { IfOk result (λ listing. IsFast program.entry.now plan.entry.now.slots listing) }
{
    if let Some(listing) = lowered(alloc, program, plan)? {
        if is_fast(program, plan, &listing) {
            return Ok(listing);
        }
    }
    fall_back(alloc, program, plan)
}
