//! Searches that make every turn.
use crate::boards::plain_board;
use crate::programs::{COPY1, prepared_of};
use incumbent_board::Board;
use mutations::Draw;
use search_workers::{FreeGate, Worker, finish, search_all};
use std::alloc::Global;
use std::sync::Mutex;
use std::test::Fail;

/// Whether each of so many lanes has so many entries, and no other lane has any.
fn has_turns(board: &Board, lanes: u8, turns: u16) -> bool {
    for lane in 0..lanes {
        if board.entries().iter().filter(|e| e.lane == lane).count() != usize::from(turns) {
            return false;
        }
    }
    board.entries().len() == usize::from(lanes) * usize::from(turns)
}

#[test]
fn every_missing_turn_is_made(rt: HostRuntime) -> Result<(), Fail> {
    let alloc = rt.alloc();
    let prepared = prepared_of(alloc, COPY1)?.expect(&rt, "the text is a program");
    let mut board = plain_board(alloc, &prepared, &[5, 6, 7, 8], 3)?.expect(
        &rt,
        "the opening is proved",
    );
    finish(alloc, &prepared, &mut board)?;
    assert!(rt; has_turns(&board, 4, 3));
    assert_eq!(rt; board.opening_cost(), 28);
    Ok(())
}

#[test]
fn a_board_tells_what_its_search_began_with(rt: HostRuntime) -> Result<(), Fail> {
    let alloc = rt.alloc();
    let prepared = prepared_of(alloc, COPY1)?.expect(&rt, "the text is a program");
    let board = plain_board(alloc, &prepared, &[5, 6], 3)?.expect(&rt, "the opening is proved");
    assert!(rt; board.opening_cost() == 28 && board.lanes() == 2 && board.turns() == 3);
    assert!(rt; board.seeds() == [5, 6].as_slice());
    assert_eq!(rt; board.draw(), Draw::Two);
    let journal = board.into_journal([7; 32]);
    assert!(rt; journal.draw == Draw::Two && journal.digest == [7; 32] && journal.opening == 28);
    assert!(rt; journal.seeds.items() == [5, 6].as_slice() && journal.turns == 3);
    assert_eq!(rt; journal.entries.items().len(), 0);
    Ok(())
}

#[test]
fn workers_make_every_turn(rt: HostRuntime) -> Result<(), Fail> {
    let alloc = rt.alloc();
    let prepared = prepared_of(alloc, COPY1)?.expect(&rt, "the text is a program");
    let board = Mutex::new(plain_board(alloc, &prepared, &[1, 2, 3], 5)?.expect(
        &rt,
        "the opening is proved",
    ));
    let mut workers = [Worker::new(alloc, 0, 2, 1)?, Worker::new(alloc, 1, 2, 1)?];
    search_all(&rt, alloc, &prepared, &board, &mut workers, &FreeGate);
    let board = board.into_inner();
    assert!(rt; has_turns(&board, 3, 5));
    Ok(())
}
