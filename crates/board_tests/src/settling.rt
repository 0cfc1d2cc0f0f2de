//! Looks, and which offers are taken.
use crate::boards::{board_of_copy, looked, plain_board, short_offer};
use crate::programs::{COPY1, COPY2, MUL4, prepared_of};
use equiv_validator::Prepared;
use incumbent_board::{Board, Offer, Settled, Sight};
use mutations::{Draw, apply, drawn};
use op_order::Plan;
use plain_checks::checked_plain;
use search_workers::make_offer;
use std::alloc::{AllocError, Global};
use std::test::Fail;

fn is_taken(settled: Settled, number: u32, accepted: bool) -> bool {
    match settled {
        Settled::Accepted(found) => accepted && found == number,
        Settled::Kept(found) => !accepted && found == number,
        Settled::Foreign(_) => false,
    }
}

/// Whether the next offer of the copy's lane, made to cost so much, gets this number.
fn takes(
    alloc: Global,
    prepared: &Prepared,
    board: &mut Board,
    cost: u32,
    number: u32,
    accepted: bool,
) -> Result<bool, Fail> {
    let mut plan = Plan::with_room(alloc, 1)?;
    let Some(sight) = looked(board, prepared, &mut plan) else {
        return Ok(false);
    };
    let Some(offer) = short_offer(alloc, prepared, sight, &plan, cost)? else {
        return Ok(false);
    };
    Ok(is_taken(board.settle(0, offer), number, accepted))
}

#[test]
fn an_offer_is_accepted_where_it_costs_no_more(rt: HostRuntime) -> Result<(), Fail> {
    let alloc = rt.alloc();
    let prepared = prepared_of(alloc, COPY1)?.expect(&rt, "the text is a program");
    let mut board = board_of_copy(alloc, &prepared)?.expect(&rt, "the opening is proved");
    assert_eq!(rt; board.opening_cost(), 90);
    for (cost, number, accepted) in [(50, 1, true), (40, 2, true), (40, 3, true), (60, 4, false)] {
        let taken = takes(alloc, &prepared, &mut board, cost, number, accepted)?;
        assert!(rt; taken, "{number}");
    }
    assert_eq!(rt; board.best(), 3);
    assert_eq!(rt; board.incumbent().cost(), 40);
    let mut plan = Plan::with_room(alloc, 1)?;
    assert!(rt; looked(&mut board, &prepared, &mut plan).is_none());
    Ok(())
}

/// Whether the offer is foreign, and the board stays as it was.
fn is_foreign(board: &mut Board, offer: Offer) -> bool {
    let entries = board.entries().len();
    let best = board.best();
    let cost = board.incumbent().cost();
    let Settled::Foreign(_) = board.settle(0, offer) else {
        return false;
    };
    board.entries().len() == entries && board.best() == best && board.incumbent().cost() == cost
}

/// The offer of the plain listing of the program's opening plan, for the first lane at its first turn.
fn opening_offer(alloc: Global, prepared: &Prepared) -> Result<Offer, AllocError> {
    let plan = Plan::opening(alloc, prepared.program())?;
    let checked = checked_plain(alloc, prepared, plan)?;
    Offer::new(alloc, 0, 0, checked)
}

/// Whether these are foreign after the look of the copy's lane: an offer of another program, one for the next turn,
/// and, after the one that is due, one for the same turn again.
fn others_are_foreign(
    alloc: Global,
    prepared: &Prepared,
    other: &Prepared,
    board: &mut Board,
) -> Result<bool, Fail> {
    let mut plan = Plan::with_room(alloc, 1)?;
    let Some(sight) = looked(board, prepared, &mut plan) else {
        return Ok(false);
    };
    let of_other = opening_offer(alloc, other)?;
    let late = make_offer(alloc, prepared, Sight { turn: 1, ..sight }, &plan)?;
    let due = make_offer(alloc, prepared, sight, &plan)?;
    let again = make_offer(alloc, prepared, sight, &plan)?;
    if !is_foreign(board, of_other) || !is_foreign(board, late) {
        return Ok(false);
    }
    Ok(is_taken(board.settle(0, due), 1, true) && is_foreign(board, again))
}

#[test]
fn offers_of_other_programs_and_turns_are_foreign(rt: HostRuntime) -> Result<(), Fail> {
    let alloc = rt.alloc();
    let prepared = prepared_of(alloc, COPY1)?.expect(&rt, "the text is a program");
    let other = prepared_of(alloc, COPY2)?.expect(&rt, "the text is a program");
    let mut board = board_of_copy(alloc, &prepared)?.expect(&rt, "the opening is proved");
    assert!(rt; others_are_foreign(alloc, &prepared, &other, &mut board)?);
    Ok(())
}

/// Whether an offer is foreign that is made for the opening plan with its first two slots exchanged.
fn exchanged_is_foreign(
    alloc: Global,
    prepared: &Prepared,
    board: &mut Board,
) -> Result<bool, Fail> {
    let mut plan = Plan::opening(alloc, prepared.program())?;
    let Some(sight) = looked(board, prepared, &mut plan) else {
        return Ok(false);
    };
    let moved = drawn(prepared.program(), &plan, [0, 0, 1, 0], Draw::One);
    apply(prepared.program(), moved, &mut plan);
    let offer = make_offer(alloc, prepared, sight, &plan)?;
    Ok(plan.slots().len() > 1 && plan.slots()[0].op == 1 && is_foreign(board, offer))
}

#[test]
fn an_offer_for_another_plan_is_foreign(rt: HostRuntime) -> Result<(), Fail> {
    let alloc = rt.alloc();
    let prepared = prepared_of(alloc, MUL4)?.expect(&rt, "the text is a program");
    let mut board = plain_board(alloc, &prepared, &[0], 4)?.expect(&rt, "the opening is proved");
    assert!(rt; exchanged_is_foreign(alloc, &prepared, &mut board)?);
    Ok(())
}
