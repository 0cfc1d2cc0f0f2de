ghost use Rattle.std.specs.Prelude.{◌≡◌, ◌⊎◌, None, IfSome, map, string_bytes};
ghost use Rattle.command_frame.specs.Change.{IsIdle, change_of};
ghost use Rattle.search_top.specs.Commands.{EndsAs, SearchSucceeds, search_command};
ghost use Rattle.search_top.specs.Search.{IsOfSearch, OnSuccess};

use crate::lanes::Task;
use crate::lanes_command::{LaneFiles, search_lanes};
use crate::opening::opening_of;
use base::Text;
use command_frame::{Status, load_program, output_name, store_and_say};
use command_line::{Command, command_of};
use io_ports::Shelf;
use search_workers::Gate;
use std::alloc::Global;
use std::sync::Wait;
use std::thread::Threads;

/// Publishes the opening of the program in a file under the name `asm`.
fn search_file<S: Shelf>(alloc: Global, program: Text, asm: Text, shelf: &mut S) -> Status
    ensures { EndsAs (Command.Search program asm)
        (change_of S.held S.said S.calls S.faults shelf.old shelf.new) result }
{
    let Ok(output) = output_name(alloc) else {
        return Status::OutOfMemory;
    };
    let program = match load_program(alloc, program, shelf) {
        Ok(program) => program,
        Err(status) => return status,
    };
    match opening_of(alloc, program) {
        Ok(opening) => store_and_say(
            opening.text.as_slice(),
            asm,
            opening.line.as_bytes(),
            output,
            shelf,
        ),
        Err(_) => Status::OutOfMemory,
    }
}

/// Runs the search that the words of a command line are.
fn dispatch<R: Threads + Wait + Sync, S: Shelf, G: Gate + Sync>(
    rt: &R,
    alloc: Global,
    words: &[String],
    shelf: &mut S,
    gate: &G,
) -> Status
    ensures usage { result ≡ Status.Usage → search_command (map string_bytes words.now) ≡ None }
    ensures unknown { search_command (map string_bytes words.now) ≡ None
        → (result ≡ Status.Usage) ⊎ (result ≡ Status.OutOfMemory) }
    ensures idle { search_command (map string_bytes words.now) ≡ None
        → IsIdle (change_of S.held S.said S.calls S.faults shelf.old shelf.new) }
    ensures answer { IfSome (search_command (map string_bytes words.now))
        (λ command. EndsAs command (change_of S.held S.said S.calls S.faults shelf.old shelf.new) result) }
    ensures statuses { IsOfSearch result }
{
    match command_of(alloc, words) {
        Ok(Some(Command::Search { program, asm })) => search_file(alloc, program, asm, shelf),
        Ok(
            Some(
                Command::SearchLanes {
                    program,
                    asm,
                    journal,
                    seeds,
                    workers,
                    turns,
                },
            ),
        ) => {
            let names = LaneFiles {
                program,
                asm,
                journal,
            };
            let task = Task {
                seeds: seeds.items(),
                workers,
                turns,
            };
            search_lanes(rt, alloc, names, task, shelf, gate)
        }
        Ok(_) => Status::Usage,
        Err(_) => Status::OutOfMemory,
    }
}

/// Searches for listings of a program, and publishes the best one. The words are one of these:
///
/// - `search PROGRAM ASM` makes the plain listing of the program's opening plan and checks it. It reads the file
///   PROGRAM, writes the listing's text to the file ASM, and says the listing's cost.
/// - `search PROGRAM ASM JOURNAL --seeds LIST --workers N --turns N` begins there. Each seed has a lane that makes so
///   many turns, and so many workers make them beside each other: they change the best plan that they last saw, check
///   its listing, and offer it. It writes the text of the cheapest listing to ASM and the journal of all offers to
///   JOURNAL, and says a summary. `gate` is called before and after each turn's work.
///
/// The refusals come in this order: [`Status::Usage`]; [`Status::ReadFault`] and [`Status::TooLong`];
/// [`Status::NotJson`]; [`Status::Program`]; and last [`Status::WriteFault`], of ASM, then of JOURNAL, then of standard
/// output. Nothing is written before everything is computed, and [`Status::OutOfMemory`] comes only before. It may wait
/// for its workers, and ends when all turns of all lanes are made.
pub fn search<R: Threads + Wait + Sync, S: Shelf, G: Gate + Sync>(
    rt: &R,
    alloc: Global,
    words: &[String],
    shelf: &mut S,
    gate: &G,
) -> Status
    // `Usage` comes exactly where the words are no command line of `search`, or there is no memory to read them apart.
    // Nothing is then done.
    ensures usage { result ≡ Status.Usage → search_command (map string_bytes words.now) ≡ None }
    ensures unknown { search_command (map string_bytes words.now) ≡ None
        → (result ≡ Status.Usage) ⊎ (result ≡ Status.OutOfMemory) }
    ensures idle { search_command (map string_bytes words.now) ≡ None
        → IsIdle (change_of S.held S.said S.calls S.faults shelf.old shelf.new) }

    // What each other status says of the files and of what was said.
    ensures answer { IfSome (search_command (map string_bytes words.now))
        (λ command. EndsAs command (change_of S.held S.said S.calls S.faults shelf.old shelf.new) result) }

    // PROGRAM is a program. Without JOURNAL, ASM is the text of the plain listing of its opening plan, which is proved,
    // and so correct, and its cost was said. With it, JOURNAL is the text of a legal journal that has every turn of
    // every lane, ASM is the text of a proved and correct listing of the plan of the last number of least cost, and the
    // summary was said.
    ensures success { OnSuccess result (IfSome (search_command (map string_bytes words.now))
        (λ command. SearchSucceeds command (change_of S.held S.said S.calls S.faults shelf.old shelf.new))) }

    // It reads no listing and no journal, and runs nothing.
    ensures statuses { IsOfSearch result }
{
    dispatch(rt, alloc, words, shelf, gate)
}
