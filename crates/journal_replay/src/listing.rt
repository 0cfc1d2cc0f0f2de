//! The listing that is replayed.
ghost use Rattle.std.specs.Prelude.{◌≡◌, IfOk, MatchResult};
ghost use Rattle.op_order.specs.Legal.{IsLegal};
ghost use Rattle.cost_table.specs.Costs.{cost_of};
ghost use Rattle.equiv_validator.specs.Kept.{IsChecked};
ghost use Rattle.journal_replay.specs.Checks.{renamed};
ghost use Rattle.journal_replay.specs.Inside.{IsListingFault};

use crate::fault::ReplayFault;
use cost_table::cost;
use equiv_validator::{Answer, Checked, Prepared};
use op_order::Plan;
use std::alloc::{AllocError, Global};
use word_program::Program;
use x86_instr::{Line, Lines, Listing, Text};

fn copied(alloc: Global, lines: &[Line]) -> Result<Lines, AllocError>
    ensures { IfOk result (λ copy. copy ≡ lines.now) }
{
    let mut copy = Lines::new(alloc);
    for line in lines {
        copy.push(*line)?;
    }
    Ok(copy)
}

/// The listing under the name of a program.
pub fn rename(alloc: Global, program: &Program, listing: &Listing) -> Result<Listing, AllocError>
    ensures { IfOk result (λ l. l ≡ renamed program.now listing.now) }
{
    let lines = copied(alloc, listing.lines())?;
    let name = Text::from_str(alloc, program.name().as_str())?;
    match Listing::new(alloc, name, lines) {
        Ok(listing) => Ok(listing),
        Err(_) => unreachable!(),
    }
}

/// Whether a listing realises a plan, costs so much, and is proved for the program, in this order.
pub fn check_listing(
    alloc: Global,
    prepared: &Prepared,
    plan: Plan,
    listing: Listing,
    recorded: u64,
) -> Result<(), ReplayFault>
    requires legal { IsLegal prepared.now plan.slots }
    requires name { listing.name ≡ prepared.now.name }
    ensures { MatchResult result
        (λ _. IsChecked prepared.now plan.slots listing × (recorded ≡ cost_of listing.lines))
        (IsListingFault prepared.now plan.slots listing recorded) }
{
    let table = cost(&listing);
    let Ok(answer) = Checked::checked(alloc, prepared, plan, listing) else {
        return Err(ReplayFault::Memory);
    };
    match answer {
        Answer::Differs { slot, .. } => Err(ReplayFault::Realises { slot }),
        Answer::Not { why, .. } => {
            if recorded != table {
                return Err(ReplayFault::Cost { recorded, table });
            }
            Err(ReplayFault::NotProved(why))
        }
        Answer::Yes(_) => {
            if recorded != table {
                return Err(ReplayFault::Cost { recorded, table });
            }
            Ok(())
        }
    }
}
