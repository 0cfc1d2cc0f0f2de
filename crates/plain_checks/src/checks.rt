ghost use Rattle.std.specs.Prelude.{◌≡◌, IfOk};
ghost use Rattle.op_order.specs.Legal.{IsLegal};
ghost use Rattle.plain_lower.specs.Plain.{plain_listing};
ghost use Rattle.equiv_validator.specs.Kept.{HasChecks};
ghost use Rattle.plain_checks.specs.Proved.{HasRightPlain};

use equiv_validator::{Answer, Checked, Prepared};
use op_order::Plan;
use plain_lower::plain;
use std::alloc::{AllocError, Global};
use word_program::Program;

/// Says of a program that each of its plain listings is right. It does nothing.
fn has_right_plain(program: &Program)
    ensures { HasRightPlain program.now }
{
    program.comes_from_parts();
}

/// The plain listing of a legal plan, checked and kept with the plan. The check never fails: the one error is want of
/// memory.
pub fn checked_plain(alloc: Global, prepared: &Prepared, plan: Plan) -> Result<Checked, AllocError>
    requires { IsLegal prepared.now plan.slots }
    ensures kept { IfOk result (λ c. c ≡ record {
      program = prepared.now;
      plan = plan;
      listing = plain_listing prepared.now plan.slots;
    }) }
    ensures checks { IfOk result HasChecks }
{
    has_right_plain(prepared.program());
    let listing = plain(alloc, prepared.program(), &plan)?;
    match Checked::checked(alloc, prepared, plan, listing)? {
        Answer::Yes(checked) => Ok(checked),
        Answer::Differs { .. } => unreachable!(),
        Answer::Not { .. } => unreachable!(),
    }
}
