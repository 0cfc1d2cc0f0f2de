//! What the listings of the forward pass are checked for.
ghost use Rattle.std.specs.Prelude.{◌≡◌, IfOk};
ghost use Rattle.op_order.specs.Legal.{IsLegal};

use cost_table::cost;
use equiv_validator::{Prepared, Verdict, check};
use fast_lower::is_fast;
use fiat_json::read_program;
use forward_pass::lowered;
use mutations::{Draw, apply, drawn};
use op_order::Plan;
use std::alloc::{AllocError, Global};
use std::sync::Arc;
use std::test::Fail;
use word_program::Program;

/// The program of a text, which has at most 1,048,576 bytes.
fn program_of(alloc: Global, text: &str) -> Option<Program> {
    if text.len() > 1_048_576 {
        return None;
    }
    match read_program(alloc, text.as_bytes()) {
        Ok(program) => Some(program),
        Err(_) => None,
    }
}

/// The same, prepared for the check of its listings.
pub fn prepared(alloc: Global, text: &str) -> Result<Prepared, Fail> {
    let program = program_of(alloc, text).ok_or("no program")?;
    Ok(Prepared::new(alloc, Arc::new(alloc, program)?)?)
}

/// Whether the plan has a fast listing by the pass, which is proved. Then `fast` gives this one, and not the fall-back.
pub fn is_proved(alloc: Global, prepared: &Prepared, plan: &Plan) -> Result<bool, AllocError>
    requires { IsLegal prepared.now plan.now.slots }
{
    let program: &Program = prepared.program();
    let Some(listing) = lowered(alloc, program, plan)? else {
        return Ok(false);
    };
    if !is_fast(program, plan, &listing) {
        return Ok(false);
    }
    match check(alloc, prepared, &listing)? {
        Verdict::Proved(_) => Ok(true),
        Verdict::Not(_) => Ok(false),
    }
}

/// What the listing of a program's opening plan costs; more than any listing costs where it is not proved.
pub fn opening_cost(alloc: Global, text: &str) -> Result<u64, Fail> {
    let prepared = prepared(alloc, text)?;
    let plan = Plan::opening(alloc, prepared.program())?;
    if !is_proved(alloc, &prepared, &plan)? {
        return Ok(u64::MAX);
    }
    match lowered(alloc, prepared.program(), &plan)? {
        Some(listing) => Ok(cost(&listing)),
        None => Ok(u64::MAX),
    }
}

/// The plan after the mutation that four words draw.
pub fn changed(
    alloc: Global,
    program: &Program,
    plan: &Plan,
    words: [u32; 4],
) -> Result<Plan, AllocError>
    requires { IsLegal program.now plan.now.slots }
    ensures { IfOk result (λ changed. IsLegal program.now changed.slots) }
{
    let mutation = drawn(program, plan, words, Draw::Two);
    let _slots = plan.slots();
    let mut changed = Plan::with_room(alloc, plan.room())?;
    plan.copy_into(&mut changed);
    apply(program, mutation, &mut changed);
    Ok(changed)
}
