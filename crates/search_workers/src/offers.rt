ghost use Rattle.std.specs.Prelude.{◌≡◌, IfOk};
ghost use Rattle.op_order.specs.Legal.{IsLegal};
ghost use Rattle.mutations.specs.Mutations as spec;
ghost use Rattle.mutations.specs.Words.{words_of};
ghost use Rattle.search_workers.specs.Offers.{IsOfferFor, IsOfferWith, IsPlainWhereMarked};

use equiv_validator::{Answer, Checked, Prepared};
use fast_lower::fast;
use incumbent_board::{Offer, Sight};
use mutations::{apply, drawn, words};
use op_order::Plan;
use plain_checks::checked_plain;
use std::alloc::{AllocError, Global};
use word_program::Program;

/// A plan with the same slots.
fn copied(alloc: Global, plan: &Plan) -> Result<Plan, AllocError>
    ensures { IfOk result (λ copy. copy.slots ≡ plan.now.slots) }
{
    let _slots = plan.slots();
    let mut copy = Plan::with_room(alloc, plan.room())?;
    plan.copy_into(&mut copy);
    Ok(copy)
}

/// The plan after the mutation that a sight's seed draws for it at the sight's turn.
fn plan_offered(
    alloc: Global,
    program: &Program,
    sight: Sight,
    plan: &Plan,
) -> Result<Plan, AllocError>
    requires { IsLegal program.now plan.now.slots }
    ensures slots { IfOk result (λ changed. changed.slots ≡ spec.applied program.now
        (spec.drawn program.now plan.now.slots (words_of sight.seed sight.turn) sight.draw) plan.now.slots) }
    ensures legal { IfOk result (λ changed. IsLegal program.now changed.slots) }
{
    let mutation = drawn(program, plan, words(sight.seed, sight.turn), sight.draw);
    let mut changed = copied(alloc, plan)?;
    apply(program, mutation, &mut changed);
    Ok(changed)
}

/// A checked listing as an offer, where it costs less than the plain listing of its plan, which is offered else.
fn cheaper_offer(
    alloc: Global,
    prepared: &Prepared,
    sight: Sight,
    checked: Checked,
) -> Result<Offer, AllocError>
    requires program { checked.program ≡ prepared.now }
    ensures offer { IfOk result (IsOfferWith prepared.now sight checked.plan.slots) }
    ensures plain { IfOk result IsPlainWhereMarked }
{
    let offer = Offer::new(alloc, sight.lane, sight.turn, checked)?;
    if !offer.plain {
        return Ok(offer);
    }
    let plan = copied(alloc, offer.checked.plan())?;
    plain_offer(alloc, prepared, sight, plan)
}

/// The plain listing of a plan as an offer.
fn plain_offer(
    alloc: Global,
    prepared: &Prepared,
    sight: Sight,
    plan: Plan,
) -> Result<Offer, AllocError>
    requires legal { IsLegal prepared.now plan.slots }
    ensures offer { IfOk result (IsOfferWith prepared.now sight plan.slots) }
    ensures plain { IfOk result IsPlainWhereMarked }
{
    let checked = checked_plain(alloc, prepared, plan)?;
    Offer::new(alloc, sight.lane, sight.turn, checked)
}

/// The offer for a sight, and for the plan that came with it: that plan after the mutation that is drawn, with its
/// fast listing where this one is proved and costs less than the plain one, else with the plain one. So there is an
/// offer for every sight: the one error is want of memory. It needs no board.
pub fn make_offer(
    alloc: Global,
    prepared: &Prepared,
    sight: Sight,
    plan: &Plan,
) -> Result<Offer, AllocError>
    requires legal { IsLegal prepared.now plan.now.slots }
    ensures offer { IfOk result (IsOfferFor prepared.now sight plan.now.slots) }
    ensures plain { IfOk result IsPlainWhereMarked }
{
    let changed = plan_offered(alloc, prepared.program(), sight, plan)?;
    let listing = fast(alloc, prepared.program(), &changed)?;
    match Checked::checked(alloc, prepared, changed, listing)? {
        Answer::Yes(checked) => cheaper_offer(alloc, prepared, sight, checked),
        Answer::Differs { plan, .. } | Answer::Not { plan, .. } => {
            plain_offer(alloc, prepared, sight, plan)
        }
    }
}
