ghost use Rattle.std.specs.Prelude.{◌≡◌, ◌<◌, ◌≤◌, ℕ, length, IfOk, OnOk, MatchBool};
ghost use Rattle.std.specs.Prelude.{suc};
ghost use Rattle.journal_rules.specs.Legal.{IsWhole, turns_of};
ghost use Rattle.incumbent_board.specs.Calls.{IsDue};
ghost use Rattle.incumbent_board.specs.Views.{Look};
ghost use Rattle.search_workers.specs.Later.{IsLater};

use crate::offers::make_offer;
use equiv_validator::Prepared;
use incumbent_board::{Board, Offer, Settled};
use op_order::Plan;
use std::alloc::{AllocError, Global};

/// Settles an offer that its lane owes.
fn settle_due(board: &mut Board, lane: u8, offer: Offer)
    requires due { (look : Look) × IsDue board.old lane offer look }
    ensures later { IsLater board.old board.new }
    ensures made { turns_of lane board.old.entries < turns_of lane board.new.entries }
{
    match board.settle(lane, offer) {
        Settled::Accepted(_) => {}
        Settled::Kept(_) => {}
        Settled::Foreign(_) => unreachable!(),
    }
}

/// Makes the next turn of a lane, where it has one left. The look comes into `plan`.
fn make_turn(
    alloc: Global,
    prepared: &Prepared,
    board: &mut Board,
    lane: u8,
    plan: &mut Plan,
) -> Result<bool, AllocError>
    requires program { prepared.now ≡ board.old.setup.program }
    requires lane { lane < length board.old.setup.seeds }
    requires room { length prepared.now.ops ≤ plan.old.room }
    ensures later { IsLater board.old board.new }
    ensures room { plan.new.room ≡ plan.old.room }
    ensures made { IfOk result (λ made. MatchBool made
        (turns_of lane board.old.entries < turns_of lane board.new.entries)
        (board.new.setup.turns ≤ turns_of lane board.new.entries)) }
{
    let _ = board.incumbent();
    let Some(sight) = board.look(lane, plan) else {
        return Ok(false);
    };
    let offer = make_offer(alloc, prepared, sight, plan)?;
    settle_due(board, lane, offer);
    Ok(true)
}

/// Makes every turn of a lane that is missing.
fn finish_lane(
    alloc: Global,
    prepared: &Prepared,
    board: &mut Board,
    lane: u8,
    plan: &mut Plan,
) -> Result<(), AllocError>
    requires program { prepared.now ≡ board.old.setup.program }
    requires lane { lane < length board.old.setup.seeds }
    requires room { length prepared.now.ops ≤ plan.old.room }
    ensures later { IsLater board.old board.new }
    ensures room { plan.new.room ≡ plan.old.room }
    ensures made { OnOk result (board.new.setup.turns ≤ turns_of lane board.new.entries) }
{
    for _round in 0..board.turns() {
        if !make_turn(alloc, prepared, board, lane, plan)? {
            return Ok(());
        }
    }
    Ok(())
}

/// Makes every turn that is missing, lane by lane in ascending order. The one error is want of memory, and then the
/// turns stay that were made.
pub fn finish(alloc: Global, prepared: &Prepared, board: &mut Board) -> Result<(), AllocError>
    requires program { prepared.now ≡ board.old.setup.program }
    ensures later { IsLater board.old board.new }
    ensures whole { OnOk result (IsWhole board.new.setup board.new.entries) }
{
    let slots = prepared.program().ops().len() as u16;
    let mut plan = Plan::with_room(alloc, slots)?;
    for lane in 0..board.lanes() {
        finish_lane(alloc, prepared, board, lane, &mut plan)?;
    }
    let _ = board.entries();
    Ok(())
}
