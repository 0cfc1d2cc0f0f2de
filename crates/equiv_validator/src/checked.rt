ghost use Rattle.std.specs.Prelude.{◌≡◌, IfOk};
ghost use Rattle.std.specs.Arc.{arc_value};
ghost use Rattle.cost_table.specs.Costs.{cost_of};
ghost use Rattle.op_order.specs.Legal.{IsLegal};
ghost use Rattle.equiv_validator.specs.Answers.{IsAnswer};
ghost use Rattle.equiv_validator.specs.Kept.{HasChecks};

use crate::checking::check;
use crate::prepared::Prepared;
use crate::realising::first_difference;
use crate::verdict::{Verdict, Why};
use op_order::Plan;
use std::alloc::{AllocError, Global};
use std::marker::Model;
use std::sync::Arc;
use word_program::Program;
use x86_instr::Listing;

/// A program, a legal plan of it, and a listing with the program's name that realises the plan and is proved for the
/// program. Contracts see the three.
#[derive(Drop)]
pub struct Checked {
    program: Arc<Program>,
    plan: Plan,
    listing: Listing,
}

impl Model for Checked {
    ghost use Rattle.std.specs.Arc.{arc_value};
    ghost use Rattle.equiv_validator.specs.Kept.{CheckedListing, IsChecked};

    ghost Value = { CheckedListing };

    ghost view = { λ c. record { program = arc_value c.program; plan = c.plan; listing = c.listing } };

    ghost invariant = { λ c. IsChecked (arc_value c.program) c.plan.slots c.listing };
}

/// What the check of a listing together with its plan answers.
#[derive(Drop)]
pub enum Answer {
    /// The listing realises the plan, and it is proved for the program.
    Yes(Checked),
    /// The listing does not realise the plan. This is the first slot, counted from 0, of which the listing has other
    /// lines; or the number of slots, where it has the lines of all slots and owned lines are left over. The plan is
    /// handed back.
    Differs { slot: u16, plan: Plan },
    /// The listing realises the plan, and is not proved. The plan is handed back.
    Not { why: Why, plan: Plan },
}

impl Checked {
    /// Checks a listing together with its plan. Where the listing does not realise the plan, the answer is `Differs`;
    /// else it is that of [`check`]. The one error is want of memory, which drops the plan and the listing. It takes
    /// no more memory than [`check`], and goes once over the listing before that.
    pub fn checked(
        alloc: Global,
        prepared: &Prepared,
        plan: Plan,
        listing: Listing,
    ) -> Result<Answer, AllocError>
        requires legal { IsLegal prepared.now plan.slots }
        requires name { listing.name ≡ prepared.now.name }
        ensures { IfOk result (IsAnswer prepared.now plan listing) }
    {
        if let Some(slot) = first_difference(prepared.program(), &plan, &listing) {
            return Ok(Answer::Differs { slot, plan });
        }
        match check(alloc, prepared, &listing)? {
            Verdict::Not(why) => Ok(Answer::Not { why, plan }),
            Verdict::Proved(_) => {
                let program = Arc::try_clone(prepared.program())?;
                Ok(Answer::Yes(Checked {
                    program,
                    plan,
                    listing,
                }))
            }
        }
    }

    /// The program, which is shared with the one that was prepared.
    pub fn program(&self) -> &Arc<Program>
        ensures program { arc_value result.now ≡ self.now.program }
        ensures checks { HasChecks self.now }
    {
        &self.program
    }

    /// The plan.
    pub fn plan(&self) -> &Plan
        ensures plan { result.now ≡ self.now.plan }
        ensures checks { HasChecks self.now }
    {
        &self.plan
    }

    /// The listing.
    pub fn listing(&self) -> &Listing
        ensures listing { result.now ≡ self.now.listing }
        ensures checks { HasChecks self.now }
    {
        &self.listing
    }

    /// What the listing costs.
    pub fn cost(&self) -> u64
        ensures { result ≡ cost_of self.now.listing.lines }
    {
        cost_table::cost(&self.listing)
    }
}
