ghost use Rattle.std.specs.Prelude.{◌≡◌, ◌≢◌, ◌<◌, ◌≤◌, ◌*◌, [], ◌∷◌, length, IfOk, string_bytes};
ghost use Rattle.journal_rules.specs.declared.limits.TheConstants.{MAX_ENTRIES, MAX_LANES, MAX_TURNS};
ghost use Rattle.command_frame.specs.Change.{change_of};
ghost use Rattle.command_frame.specs.Files as files;
ghost use Rattle.search_top.specs.Commands.{EndsAs};
ghost use Rattle.search_top.specs.Lanes.{LanesMeans};

use crate::lanes::{Task, searched};
use crate::publishing::{Published, publish};
use base::Text;
use command_frame::{
    DigestedProgram, Status, load_digested_program, output_name, store_both_and_say,
};
use command_line::{Command, Words};
use io_ports::Shelf;
use search_workers::Gate;
use std::alloc::{AllocError, Global};
use std::sync::Wait;
use std::thread::Threads;

/// The files of a search with a journal.
#[derive(Drop)]
pub struct LaneFiles {
    /// The program.
    pub program: Text,
    /// The listing that is written.
    pub asm: Text,
    /// The journal that is written.
    pub journal: Text,
}

/// Publishes the best listing that lanes of workers find for the program in a file, and the journal of all offers.
pub fn search_lanes<R: Threads + Wait + Sync, S: Shelf, G: Gate + Sync>(
    rt: &R,
    alloc: Global,
    names: LaneFiles,
    task: Task<'_>,
    shelf: &mut S,
    gate: &G,
) -> Status
    requires names { names.asm ≢ names.journal }
    requires some { 1 ≤ length task.seeds.now }
    requires lanes { length task.seeds.now ≤ MAX_LANES }
    requires turns { task.turns ≤ MAX_TURNS }
    requires entries { length task.seeds.now * task.turns ≤ MAX_ENTRIES }
    requires one { 1 ≤ task.workers }
    requires workers { task.workers ≤ 64 }
    ensures { EndsAs (Command.SearchLanes names.program names.asm names.journal task.entry.seeds.now task.entry.workers
        task.entry.turns)
        (change_of S.held S.said S.calls S.faults shelf.old shelf.new) result }
{
    let Ok(output) = output_name(alloc) else {
        return Status::OutOfMemory;
    };
    let program = match load_digested_program(alloc, names.program, shelf) {
        Ok(program) => program,
        Err(status) => return status,
    };
    match found(rt, alloc, program, task, gate) {
        Ok(found) => store_both_and_say(
            found.asm.as_slice(),
            names.asm,
            found.journal.as_slice(),
            names.journal,
            found.summary.as_bytes(),
            output,
            shelf,
        ),
        Err(_) => Status::OutOfMemory,
    }
}

/// What a search of the program publishes. The one error is want of memory.
fn found<R: Threads + Wait + Sync, G: Gate + Sync>(
    rt: &R,
    alloc: Global,
    program: DigestedProgram,
    task: Task<'_>,
    gate: &G,
) -> Result<Published, AllocError>
    requires some { 1 ≤ length task.seeds.now }
    requires lanes { length task.seeds.now ≤ MAX_LANES }
    requires turns { task.turns ≤ MAX_TURNS }
    requires entries { length task.seeds.now * task.turns ≤ MAX_ENTRIES }
    requires one { 1 ≤ task.workers }
    requires workers { task.workers ≤ 64 }
    ensures { IfOk result (λ p. LanesMeans task.entry.seeds.now task.entry.turns
        (files.DigestedProgram program.program program.digest ∷ [])
        (record { texts = p.asm.items ∷ p.journal.items ∷ []; word = string_bytes p.summary })) }
{
    let board = searched(rt, alloc, program.program, task, gate)?;
    publish(alloc, board, program.digest)
}
