ghost use Rattle.std.specs.Prelude.{◌≡◌, ◌≤◌, ◌++◌, [], ◌∷◌, length, IfOk, IfErr, OnOk, decimal, string_bytes};
ghost use Rattle.command_frame.specs.Change.{change_of};
ghost use Rattle.command_frame.specs.Ends.{RefusesWork};
ghost use Rattle.command_frame.specs.Files as files;
ghost use Rattle.command_frame.specs.Writes.{says};
ghost use Rattle.journal_text.specs.Limits.{IsWithin};
ghost use Rattle.journal_replay.specs.Checks.{given};
ghost use Rattle.search_top.specs.Commands.{EndsAs};
ghost use Rattle.search_top.specs.Replay as spec;

use crate::publishing::push_number;
use base::Text;
use command_frame::{
    DigestedProgram, Status, load_digested_program, load_journal, load_listing, output_name,
    say_text,
};
use command_line::Command;
use io_ports::Shelf;
use journal_replay::{ReplayFault, replay};
use journal_rules::Journal;
use std::alloc::{AllocError, Global};
use std::sync::Arc;
use x86_instr::Listing;

/// The names of the files of a replay.
#[derive(Drop)]
pub struct ReplayFiles {
    /// The program.
    pub program: Text,
    /// The journal of a search of it.
    pub journal: Text,
    /// The listing that the search published.
    pub asm: Text,
}

/// Says that the journal in a file and the listing in another replay for the program in a third.
pub fn replay_files<S: Shelf>(alloc: Global, names: ReplayFiles, shelf: &mut S) -> Status
    ensures { EndsAs (Command.Replay names.program names.journal names.asm)
        (change_of S.held S.said S.calls S.faults shelf.old shelf.new) result }
{
    let Ok(output) = output_name(alloc) else {
        return Status::OutOfMemory;
    };
    let program = match load_digested_program(alloc, names.program, shelf) {
        Ok(program) => program,
        Err(status) => return status,
    };
    let journal = match load_journal(alloc, names.journal, shelf) {
        Ok(journal) => journal,
        Err(status) => return status,
    };
    let listing = match load_listing(alloc, names.asm, shelf) {
        Ok(listing) => listing,
        Err(status) => return status,
    };
    match text(alloc, program, &journal, listing) {
        Ok(text) => say_text(text.as_bytes(), output, shelf),
        Err(status) => status,
    }
}

/// What is said of a journal and a listing that replay, or the status that says why they do not.
fn text(
    alloc: Global,
    program: DigestedProgram,
    journal: &Journal,
    listing: Listing,
) -> Result<String, Status>
    requires { IsWithin journal.now }
    ensures text { IfOk result (λ text. spec.ReplayMeans (files.DigestedProgram program.program program.digest
        ∷ files.Journal journal.now ∷ files.Listing listing ∷ []) (says (string_bytes text))) }
    ensures refused { IfErr result (RefusesWork (spec.ReplayRefuses
        (files.DigestedProgram program.program program.digest
        ∷ files.Journal journal.now ∷ files.Listing listing ∷ []))) }
{
    let cost = cost_table::cost(&listing);
    match number(alloc, program, journal, listing) {
        Ok(number) => match replayed_text(alloc, journal.entries.items().len(), number, cost) {
            Ok(text) => Ok(text),
            Err(_) => Err(Status::OutOfMemory),
        },
        Err(status) => Err(status),
    }
}

/// The incumbent's number of a journal that replays with the listing.
fn number(
    alloc: Global,
    program: DigestedProgram,
    journal: &Journal,
    listing: Listing,
) -> Result<u32, Status>
    requires { IsWithin journal.now }
    ensures number { IfOk result (λ number. spec.IsNumber
        (given program.program program.digest journal.now listing) number) }
    ensures refused { IfErr result (RefusesWork (spec.ReplayRefuses
        (files.DigestedProgram program.program program.digest
        ∷ files.Journal journal.now ∷ files.Listing listing ∷ []))) }
{
    let Ok(shared) = Arc::new(alloc, program.program) else {
        return Err(Status::OutOfMemory);
    };
    match replay(alloc, &shared, program.digest, journal, listing) {
        Ok(number) => Ok(number),
        Err(ReplayFault::Memory) => Err(Status::OutOfMemory),
        Err(fault) => Err(Status::Replay(fault)),
    }
}

/// The line that tells what was replayed.
#[tactic(auto, unfolding(crate::specs::Replay::replayed_text))]
fn replayed_text(alloc: Global, entries: usize, best: u32, cost: u64) -> Result<String, AllocError>
    ensures { IfOk result (λ text. string_bytes text ≡ spec.replayed_text entries best cost) }
{
    let mut text = String::new(alloc);
    push_number(&mut text, "replayed ", entries as u64)?;
    push_number(&mut text, " best ", best as u64)?;
    push_number(&mut text, " cost ", cost)?;
    text.push_str("\n")?;
    Ok(text)
}
