ghost use Rattle.std.specs.Prelude.{◌<◌, ◌≤◌};

use crate::gate::Gate;
use crate::rounds::{Next, look_at, offer_and_settle};
use equiv_validator::Prepared;
use incumbent_board::Board;
use journal_rules::{MAX_LANES, MAX_TURNS};
use op_order::Plan;
use std::alloc::{AllocError, Global};
use std::sync::{Mutex, Wait};
use std::thread;
use std::thread::Threads;

/// What makes the offers of some lanes: those whose number leaves the worker's own when it is divided by the number of
/// workers. It has a plan of its own for what its lanes look at.
#[derive(Drop)]
pub struct Worker {
    number: u8,
    workers: u8,
    plan: Plan,
    ghost some: { 1 ≤ workers },
}

impl Worker {
    /// The worker with this number among so many, with room for a plan of so many slots. It has the lanes whose
    /// number modulo `workers` is its own. The one error is want of memory.
    pub fn new(alloc: Global, number: u8, workers: u8, slots: u16) -> Result<Worker, AllocError>
        requires some { 1 ≤ workers }
        requires most { workers ≤ 64 }
        requires below { number < workers }
    {
        Ok(Worker {
            number,
            workers,
            plan: Plan::with_room(alloc, slots)?,
        })
    }

    /// Makes one round for a lane: a look, an offer, and what the board answers to it.
    fn make_round<R: Wait, G: Gate>(
        &mut self,
        rt: &R,
        alloc: Global,
        prepared: &Prepared,
        board: &Mutex<Board>,
        gate: &G,
        lane: u8,
        round: u32,
    ) -> Next {
        let next = look_at(&mut board.lock(rt), prepared, lane, round, &mut self.plan);
        if let Next::Offer(sight) = next {
            if !offer_and_settle(rt, alloc, prepared, board, gate, sight, &self.plan) {
                return Next::Stop;
            }
        }
        next
    }

    /// Makes rounds for a lane until it is left. False where the worker stops.
    fn make_rounds<R: Wait, G: Gate>(
        &mut self,
        rt: &R,
        alloc: Global,
        prepared: &Prepared,
        board: &Mutex<Board>,
        gate: &G,
        lane: u8,
    ) -> bool {
        for round in 0..MAX_TURNS as u32 {
            match self.make_round(rt, alloc, prepared, board, gate, lane, round) {
                Next::Offer(_) => {}
                Next::Leave => return true,
                Next::Stop => return false,
            }
        }
        true
    }

    /// Makes the rounds of its lanes, one lane after the other.
    fn run<R: Wait, G: Gate>(
        &mut self,
        rt: &R,
        alloc: Global,
        prepared: &Prepared,
        board: &Mutex<Board>,
        gate: &G,
    ) {
        for lane in 0..MAX_LANES as u8 {
            if lane % self.workers != self.number {
                continue;
            }
            if !self.make_rounds(rt, alloc, prepared, board, gate, lane) {
                return;
            }
        }
    }
}

/// Runs the workers beside each other, each in a thread, until all are done. For each of its lanes in turn a worker
/// makes at most as many rounds as a lane has turns: it looks, makes the offer and settles it. It leaves a lane that
/// the board does not have or whose turns are all settled, and drops an offer that is foreign. It stops where the
/// board is not of the prepared program, where the program has more operations than the worker has room for, and where
/// it finds no memory. The board is locked for a look and for a settlement alone. Turns may be missing afterwards:
/// [`finish`](crate::finish) makes them.
pub fn search_all<R: Threads + Wait + Sync, G: Gate + Sync>(
    rt: &R,
    alloc: Global,
    prepared: &Prepared,
    board: &Mutex<Board>,
    workers: &mut [Worker],
    gate: &G,
) {
    let threads = workers.len();
    if threads == 0 {
        return;
    }
    thread::for_each_mut(
        rt,
        workers,
        threads,
        &|_, worker| worker.run(rt, alloc, prepared, board, gate),
    );
}
