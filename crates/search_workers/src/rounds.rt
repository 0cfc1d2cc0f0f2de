//! The steps of a round of a worker: a look, an offer, and what the board answers to it.
ghost use Rattle.std.specs.Prelude.{◌≡◌, Decides};
ghost use Rattle.op_order.specs.Legal.{IsLegal};
ghost use Rattle.search_workers.specs.Nexts.{IsNext};

use crate::gate::Gate;
use crate::offers::make_offer;
use equiv_validator::Prepared;
use incumbent_board::{Board, Sight};
use op_order::Plan;
use std::alloc::Global;
use std::sync::{Mutex, Wait};
use word_program::Program;

/// What a worker does next.
#[derive(Clone, Copy)]
pub enum Next {
    /// It makes the offer of this sight.
    Offer(Sight),
    /// It goes to its next lane.
    Leave,
    /// It makes no offer any more.
    Stop,
}

/// Whether the board is of the program.
fn is_of(board: &Board, program: &Program) -> bool
    ensures { Decides result (board.now.setup.program ≡ program.now) }
{
    board.incumbent().program().same(program)
}

/// Looks at the board for a lane, in a round of its own count. The worker stops where the board is of another program
/// or the plan has too little room, and leaves the lane where it is not there or has no turn or round left.
pub fn look_at(
    board: &mut Board,
    prepared: &Prepared,
    lane: u8,
    round: u32,
    plan: &mut Plan,
) -> Next
    ensures { IsNext prepared.now plan.new.slots result }
{
    let _ = board.incumbent();
    if !is_of(board, prepared.program()) {
        return Next::Stop;
    }
    if (plan.room() as usize) < prepared.program().ops().len() {
        return Next::Stop;
    }
    if board.lanes() <= lane {
        return Next::Leave;
    }
    if board.turns() <= round {
        return Next::Leave;
    }
    match board.look(lane, plan) {
        Some(sight) => Next::Offer(sight),
        None => Next::Leave,
    }
}

/// Makes the offer of a sight and puts it on the board, which may find it foreign, and then it is dropped. False where
/// there is no memory.
pub fn offer_and_settle<R: Wait, G: Gate>(
    rt: &R,
    alloc: Global,
    prepared: &Prepared,
    board: &Mutex<Board>,
    gate: &G,
    sight: Sight,
    plan: &Plan,
) -> bool
    requires { IsLegal prepared.now plan.now.slots }
{
    gate.began(sight.lane, sight.turn);
    gate.validating(sight.lane, sight.turn);
    let Ok(offer) = make_offer(alloc, prepared, sight, plan) else {
        return false;
    };
    let _ = board.lock(rt).settle(sight.lane, offer);
    gate.settled(sight.lane, sight.turn);
    true
}
