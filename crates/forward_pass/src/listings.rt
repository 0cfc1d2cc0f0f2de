ghost use Rattle.op_order.specs.Legal.{IsLegal};

use crate::frame_ends::push_all;
use crate::slots::{enter_parameters, push_late_stores, push_slots};
use cost_table::cost;
use op_order::Plan;
use operand_keys::{Keys, NextUses, keys_of};
use pass_state::Pass;
use register_spill::RegSet;
use std::alloc::{AllocError, Global};
use word_places::size_of;
use word_program::Program;
use x86_instr::{Lines, Listing, MAX_FRAME_BYTES, Text};

/// How many registers a listing has to preserve, without `rsp`.
const MOST_PRESERVED: usize = 6;

/// The first so many of the registers that a listing has to preserve: `rbx`, `rbp`, and `r12` to `r15`.
fn first_preserved(count: usize) -> RegSet {
    let bits = match count {
        0 => 0,
        1 => 0x0008,
        2 => 0x0028,
        3 => 0x1028,
        4 => 0x3028,
        5 => 0x7028,
        _ => 0xf028,
    };
    RegSet { bits }
}

/// A listing, where there is one, with its cost, and how many registers it saves.
#[derive(Drop)]
struct Candidate {
    listing: Option<Listing>,
    cost: u64,
    saves: usize,
}

/// The lines of a pass as a listing; None where they are none.
fn listing_of(
    alloc: Global,
    program: &Program,
    pass: &Pass,
    saves: usize,
) -> Result<Option<Listing>, AllocError> {
    let words = pass.frame_words().saturating_add(saves);
    if pass.is_lost() || words > MAX_FRAME_BYTES / 8 {
        return Ok(None);
    }
    let mut lines = Lines::new(alloc);
    push_all(&mut lines, pass, saves)?;
    let name = Text::from_str(alloc, program.name().as_str())?;
    match Listing::new(alloc, name, lines) {
        Ok(listing) => Ok(Some(listing)),
        Err(_) => Ok(None),
    }
}

/// The listing by a pass that uses so many of the registers that it has to preserve.
fn lowered_with(
    alloc: Global,
    program: &Program,
    plan: &Plan,
    keys: &Keys,
    uses: &NextUses,
    preserved: usize,
) -> Result<Candidate, AllocError>
    requires { IsLegal program.now plan.now.slots }
{
    let mut pass = Pass::new(alloc, program, plan, keys, uses)?;
    pass.allow(first_preserved(preserved));
    enter_parameters(&mut pass);
    push_slots(&mut pass)?;
    push_late_stores(&mut pass)?;
    let saves = size_of(pass.saved());
    let listing = listing_of(alloc, program, &pass, saves)?;
    let cost = match &listing {
        Some(listing) => cost(listing),
        None => u64::MAX,
    };
    Ok(Candidate {
        listing,
        cost,
        saves,
    })
}

/// The cheapest listing of a plan that the pass finds over the number of preserved registers; None where it finds none.
/// It is to be tested. The one error is want of memory.
pub fn lowered(alloc: Global, program: &Program, plan: &Plan) -> Result<Option<Listing>, AllocError>
    requires { IsLegal program.now plan.now.slots }
{
    let keys = keys_of(alloc, program)?;
    let uses = NextUses::new(alloc, &keys, plan)?;
    let mut best = lowered_with(alloc, program, plan, &keys, &uses, MOST_PRESERVED)?;
    for preserved in (0..best.saves).rev() {
        let other = lowered_with(alloc, program, plan, &keys, &uses, preserved)?;
        if other.cost >= best.cost && best.listing.is_some() {
            break;
        }
        best = other;
    }
    Ok(best.listing)
}
