//! A search by lanes: its board from the begin to the end.
ghost use Rattle.std.specs.Prelude.{◌≡◌, ◌≤◌, ◌*◌, length, IfOk, IsTrue};
ghost use Rattle.std.specs.Arc.{arc_value};
ghost use Rattle.cost_table.specs.Costs.{cost_of};
ghost use Rattle.mutations.specs.declared.mutation.Draw.TheVariants.{Two};
ghost use Rattle.journal_rules.specs.declared.limits.TheConstants.{MAX_ENTRIES, MAX_LANES, MAX_TURNS};
ghost use Rattle.search_top.specs.Lanes.{IsEnd, setup_of};
ghost use Rattle.search_top.specs.Search.{opening_listing};

use crate::opening::{checked_opening, prepare};
use equiv_validator::Prepared;
use incumbent_board::Board;
use mutations::Draw;
use search_workers::{Gate, Worker, finish, search_all};
use std::alloc::{AllocError, Global};
use std::sync::{Arc, Mutex, Wait};
use std::thread::Threads;
use word_program::Program;

/// What a search by lanes is to do.
#[derive(Clone, Copy)]
pub struct Task<'a> {
    /// The seed of each lane: 1 to 64.
    pub seeds: &'a [u64],
    /// How many workers there are: 1 to 64.
    pub workers: u8,
    /// How many turns each lane has: at most 65,536.
    pub turns: u32,
}

/// The board of a search of the program that all lanes have ended: so many workers make their turns beside each other,
/// and what is then missing is made here. The one error is want of memory.
pub fn searched<R: Threads + Wait + Sync, G: Gate + Sync>(
    rt: &R,
    alloc: Global,
    program: Program,
    task: Task<'_>,
    gate: &G,
) -> Result<Board, AllocError>
    requires some { 1 ≤ length task.seeds.now }
    requires lanes { length task.seeds.now ≤ MAX_LANES }
    requires turns { task.turns ≤ MAX_TURNS }
    requires entries { length task.seeds.now * task.turns ≤ MAX_ENTRIES }
    requires one { 1 ≤ task.workers }
    requires workers { task.workers ≤ 64 }
    ensures { IfOk result (IsEnd (setup_of program task.entry.seeds.now task.entry.turns)) }
{
    let prepared = prepare(alloc, program)?;
    let board = begun(alloc, &prepared, task.seeds, task.turns)?;
    let opening = board.opening_cost();
    let shared = Mutex::new(board);
    run(rt, alloc, &prepared, task.workers, &shared, gate)?;
    let mut board = own_or_begun(alloc, &prepared, task, opening, shared.into_inner())?;
    finish(alloc, &prepared, &mut board)?;
    let _ = board.entries();
    Ok(board)
}

/// The board of a search of the program that begins.
fn begun(alloc: Global, prepared: &Prepared, seeds: &[u64], turns: u32) -> Result<Board, AllocError>
    requires some { 1 ≤ length seeds.now }
    requires lanes { length seeds.now ≤ MAX_LANES }
    requires turns { turns ≤ MAX_TURNS }
    requires entries { length seeds.now * turns ≤ MAX_ENTRIES }
    ensures { IfOk result (λ b. b.setup ≡ setup_of prepared.now seeds.now turns) }
{
    let opening = checked_opening(alloc, prepared)?;
    let program = Arc::try_clone(prepared.program())?;
    Board::begin(alloc, program, seeds, turns, Draw::Two, opening)
}

/// Lets so many workers search on the board beside each other.
fn run<R: Threads + Wait + Sync, G: Gate + Sync>(
    rt: &R,
    alloc: Global,
    prepared: &Prepared,
    workers: u8,
    board: &Mutex<Board>,
    gate: &G,
) -> Result<(), AllocError>
    requires one { 1 ≤ workers }
    requires most { workers ≤ 64 }
{
    let slots = prepared.program().ops().len() as u16;
    let mut team = Vec::with_capacity(alloc, workers as usize)?;
    for number in 0..workers {
        team.push(Worker::new(alloc, number, workers, slots)?)?;
    }
    search_all(rt, alloc, prepared, board, team.as_mut_slice(), gate);
    Ok(())
}

/// The board that came back, where it is the one of this search, as all that it began with says; else one that begins.
fn own_or_begun(
    alloc: Global,
    prepared: &Prepared,
    task: Task<'_>,
    opening: u64,
    board: Board,
) -> Result<Board, AllocError>
    requires some { 1 ≤ length task.seeds.now }
    requires lanes { length task.seeds.now ≤ MAX_LANES }
    requires turns { task.turns ≤ MAX_TURNS }
    requires entries { length task.seeds.now * task.turns ≤ MAX_ENTRIES }
    requires opening { opening ≡ cost_of (opening_listing prepared.now).lines }
    ensures { IfOk result (λ b. b.setup ≡ setup_of prepared.now task.entry.seeds.now task.entry.turns) }
{
    if is_own(prepared.program(), task, opening, &board) {
        return Ok(board);
    }
    begun(alloc, prepared, task.seeds, task.turns)
}

/// Whether a board began with this.
#[tactic(auto, using(crate::proofs::Ends::setup_is))]
fn is_own(program: &Arc<Program>, task: Task<'_>, opening: u64, board: &Board) -> bool
    requires { opening ≡ cost_of (opening_listing (arc_value program.now)).lines }
    ensures { IsTrue result → board.now.setup ≡ setup_of (arc_value program.now) task.entry.seeds.now task.entry.turns }
{
    board.incumbent().program().same(program)
        && board.lanes() as usize == task.seeds.len()
        && board.turns() == task.turns
        && is_two(board.draw())
        && board.opening_cost() == opening
        && board.seeds() == task.seeds
}

fn is_two(draw: Draw) -> bool
    ensures { IsTrue result → draw ≡ Two }
{
    match draw {
        Draw::One => false,
        Draw::Two => true,
    }
}
