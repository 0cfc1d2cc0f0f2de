//! The boards of the tests, and looks and offers on them.
ghost use Rattle.std.specs.Prelude.{◌≡◌, ◌≤◌, ◌*◌, length, IfOk, IfSome};
ghost use Rattle.op_order.specs.Legal.{IsLegal};
ghost use Rattle.journal_rules.specs.declared.limits.TheConstants.{MAX_ENTRIES, MAX_LANES, MAX_TURNS};

use crate::listings;
use equiv_validator::{Answer, Checked, Prepared};
use incumbent_board::{Board, Offer, Sight};
use mutations::{Draw, apply, drawn, words};
use op_order::Plan;
use plain_checks::checked_plain;
use std::alloc::{AllocError, Global};
use std::sync::Arc;
use std::test::Fail;
use x86_instr::Listing;

/// The board of a search of the prepared program from this opening, where it is one.
fn begun(
    alloc: Global,
    prepared: &Prepared,
    seeds: &[u64],
    turns: u32,
    opening: Checked,
) -> Result<Option<Board>, AllocError>
    requires some { 1 ≤ length seeds.now }
    requires lanes { length seeds.now ≤ MAX_LANES }
    requires turns { turns ≤ MAX_TURNS }
    requires entries { length seeds.now * turns ≤ MAX_ENTRIES }
    ensures { IfOk result (λ found. IfSome found (λ board. board.setup.program ≡ prepared.now)) }
{
    if !opening.program().same(prepared.program()) {
        return Ok(None);
    }
    let plan = Plan::opening(alloc, prepared.program())?;
    if !opening.plan().same(&plan) {
        return Ok(None);
    }
    let program = Arc::try_clone(prepared.program())?;
    let board = Board::begin(alloc, program, seeds, turns, Draw::Two, opening)?;
    Ok(Some(board))
}

fn plain_opening(alloc: Global, prepared: &Prepared) -> Result<Checked, AllocError> {
    let plan = Plan::opening(alloc, prepared.program())?;
    checked_plain(alloc, prepared, plan)
}

/// The board of a search from the plain listing of the opening plan.
pub fn plain_board(
    alloc: Global,
    prepared: &Prepared,
    seeds: &[u64],
    turns: u32,
) -> Result<Option<Board>, AllocError>
    requires some { 1 ≤ length seeds.now }
    requires lanes { length seeds.now ≤ MAX_LANES }
    requires turns { turns ≤ MAX_TURNS }
    requires entries { length seeds.now * turns ≤ MAX_ENTRIES }
    ensures { IfOk result (λ found. IfSome found (λ board. board.setup.program ≡ prepared.now)) }
{
    let opening = plain_opening(alloc, prepared)?;
    begun(alloc, prepared, seeds, turns, opening)
}

/// The listing, checked together with the plan, where it is proved.
fn checked(
    alloc: Global,
    prepared: &Prepared,
    plan: Plan,
    listing: Listing,
) -> Result<Option<Checked>, AllocError>
    requires { IsLegal prepared.now plan.slots }
{
    if listing.name() != prepared.program().name() {
        return Ok(None);
    }
    match Checked::checked(alloc, prepared, plan, listing)? {
        Answer::Yes(kept) => Ok(Some(kept)),
        Answer::Differs { .. } => Ok(None),
        Answer::Not { .. } => Ok(None),
    }
}

/// The board of a search of the copy with one lane of four turns and seed 0, whose opening costs 90.
pub fn board_of_copy(alloc: Global, prepared: &Prepared) -> Result<Option<Board>, Fail> {
    let Some(listing) = listings::opening(alloc)? else {
        return Ok(None);
    };
    let plan = Plan::opening(alloc, prepared.program())?;
    let Some(opening) = checked(alloc, prepared, plan, listing)? else {
        return Ok(None);
    };
    Ok(begun(alloc, prepared, &[0], 4, opening)?)
}

/// A look of the board's first lane, where the board is of the prepared program and the plan has room.
pub fn looked(board: &mut Board, prepared: &Prepared, plan: &mut Plan) -> Option<Sight>
    ensures { IfSome result (λ _. IsLegal prepared.now plan.new.slots) }
{
    if !board.incumbent().program().same(prepared.program()) {
        return None;
    }
    if (plan.room() as usize) < prepared.program().ops().len() {
        return None;
    }
    if board.lanes() < 1 {
        return None;
    }
    board.look(0, plan)
}

/// The plan that is due for a sight, and for the plan that came with it.
fn plan_due(
    alloc: Global,
    prepared: &Prepared,
    sight: Sight,
    plan: &Plan,
) -> Result<Plan, AllocError>
    requires { IsLegal prepared.now plan.now.slots }
    ensures { IfOk result (λ changed. IsLegal prepared.now changed.slots) }
{
    let program = prepared.program();
    let mutation = drawn(program, plan, words(sight.seed, sight.turn), sight.draw);
    let _slots = plan.slots();
    let mut changed = Plan::with_room(alloc, plan.room())?;
    plan.copy_into(&mut changed);
    apply(program, mutation, &mut changed);
    Ok(changed)
}

/// The offer of the short listing of the copy, made to cost so much, for a sight and the plan that came with it.
pub fn short_offer(
    alloc: Global,
    prepared: &Prepared,
    sight: Sight,
    plan: &Plan,
    cost: u32,
) -> Result<Option<Offer>, Fail>
    requires { IsLegal prepared.now plan.now.slots }
{
    let Some(listing) = listings::short(alloc, cost)? else {
        return Ok(None);
    };
    let changed = plan_due(alloc, prepared, sight, plan)?;
    let Some(kept) = checked(alloc, prepared, changed, listing)? else {
        return Ok(None);
    };
    Ok(Some(Offer::new(alloc, sight.lane, sight.turn, kept)?))
}
