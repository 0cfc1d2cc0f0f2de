//! Boards on which events are played.
ghost use Rattle.std.specs.Prelude.{IfOk, IfSome, OnOk};
ghost use Rattle.std.specs.List.{AllByRecursion};
ghost use Rattle.op_order.specs.Legal.{IsLegal};
ghost use Rattle.incumbent_board.specs.Events.{IsPlayable};

use crate::boards::{board_of_copy, looked, short_offer};
use crate::programs::{COPY1, prepared_of};
use equiv_validator::Prepared;
use incumbent_board::{Board, Event, Events, Sight, play};
use op_order::Plan;
use std::alloc::{AllocError, Global};
use std::test::Fail;

#[tactic(auto, using(crate::proofs::Pushed::all_push))]
fn push_event(events: &mut Events, event: Event) -> Result<(), AllocError>
    requires events { AllByRecursion (IsPlayable 1) events.old }
    requires event { IsPlayable 1 event }
    ensures { OnOk result (AllByRecursion (IsPlayable 1) events.new) }
{
    events.push(event)?;
    Ok(())
}

/// Puts an offer for the sight, made to cost so much, behind the events. False where there is none.
fn push_offer(
    alloc: Global,
    prepared: &Prepared,
    sight: Sight,
    plan: &Plan,
    events: &mut Events,
    cost: u32,
) -> Result<bool, Fail>
    requires legal { IsLegal prepared.now plan.now.slots }
    requires events { AllByRecursion (IsPlayable 1) events.old }
    ensures { IfOk result (λ _. AllByRecursion (IsPlayable 1) events.new) }
{
    let Some(offer) = short_offer(alloc, prepared, sight, plan, cost)? else {
        return Ok(false);
    };
    push_event(events, Event::Settle { lane: 0, offer })?;
    Ok(true)
}

/// Puts the next look of the copy's lane behind the events, and its offer, made to cost so much, as often as is told.
/// Such an offer is settled on the board. False where it cannot be.
fn push_turn(
    alloc: Global,
    prepared: &Prepared,
    board: &mut Board,
    events: &mut Events,
    cost: u32,
    twice: bool,
) -> Result<bool, Fail>
    requires { AllByRecursion (IsPlayable 1) events.old }
    ensures { IfOk result (λ _. AllByRecursion (IsPlayable 1) events.new) }
{
    let mut plan = Plan::with_room(alloc, 1)?;
    let Some(sight) = looked(board, prepared, &mut plan) else {
        return Ok(false);
    };
    push_event(events, Event::Look { lane: 0 })?;
    let mut pushed = push_offer(alloc, prepared, sight, &plan, events, cost)?;
    if twice {
        pushed = push_offer(alloc, prepared, sight, &plan, events, cost)?;
    }
    if let Some(offer) = short_offer(alloc, prepared, sight, &plan, cost)? {
        let _ = board.settle(0, offer);
    }
    Ok(pushed)
}

/// The looks and offers of the copy's lane, its second offer once, or twice.
fn events_of(
    alloc: Global,
    prepared: &Prepared,
    board: &mut Board,
    twice: bool,
) -> Result<Option<Events>, Fail>
    ensures { IfOk result (λ found. IfSome found (AllByRecursion (IsPlayable 1))) }
{
    let mut events = Events::new(alloc);
    if !push_turn(alloc, prepared, board, &mut events, 50, false)? {
        return Ok(None);
    }
    if !push_turn(alloc, prepared, board, &mut events, 40, twice)? {
        return Ok(None);
    }
    if !push_turn(alloc, prepared, board, &mut events, 40, false)? {
        return Ok(None);
    }
    if !push_turn(alloc, prepared, board, &mut events, 60, false)? {
        return Ok(None);
    }
    Ok(Some(events))
}

/// How many offers are taken on the board, which has one lane and a program of one operation.
fn played(board: &mut Board, plan: &mut Plan, prepared: &Prepared, events: Events) -> Option<u32>
    requires { AllByRecursion (IsPlayable 1) events }
{
    if !board.incumbent().program().same(prepared.program()) {
        return None;
    }
    if board.lanes() != 1 {
        return None;
    }
    if (plan.room() as usize) < prepared.program().ops().len() {
        return None;
    }
    Some(play(board, plan, events))
}

#[test]
fn an_offer_that_is_given_twice_counts_once(rt: HostRuntime) -> Result<(), Fail> {
    let alloc = rt.alloc();
    let prepared = prepared_of(alloc, COPY1)?.expect(&rt, "the text is a program");
    for twice in [false, true] {
        let mut twin = board_of_copy(alloc, &prepared)?.expect(&rt, "the opening is proved");
        let mut board = board_of_copy(alloc, &prepared)?.expect(&rt, "the opening is proved");
        let events = events_of(alloc, &prepared, &mut twin, twice)?.expect(&rt, "all are due");
        let mut plan = Plan::with_room(alloc, 1)?;
        assert_eq!(rt; played(&mut board, &mut plan, &prepared, events), Some(4));
        assert!(rt; board.entries() == twin.entries() && board.best() == 3);
    }
    Ok(())
}
