ghost use Rattle.std.specs.Prelude.{[], ◌∷◌, IfOk, IfErr};
ghost use Rattle.command_frame.specs.Change.{change_of};
ghost use Rattle.command_frame.specs.Ends.{RefusesWork};
ghost use Rattle.command_frame.specs.Files as files;
ghost use Rattle.command_frame.specs.Writes.{says};
ghost use Rattle.equiv_validator.specs.Checks.{IsVerdict, SaysCorrect};
ghost use Rattle.search_top.specs.Check.{CheckMeans, CheckRefuses};
ghost use Rattle.search_top.specs.Commands.{EndsAs};

use base::Text;
use command_frame::{Status, load_listing, load_program, output_name, say_text};
use command_line::Command;
use equiv_validator::{Prepared, Verdict, check};
use io_ports::Shelf;
use std::alloc::{AllocError, Global};
use std::sync::Arc;
use word_program::Program;
use x86_instr::Listing;

/// Says whether the listing in the file `asm` is proved for the program in the other file.
pub fn check_file<S: Shelf>(alloc: Global, program: Text, asm: Text, shelf: &mut S) -> Status
    ensures { EndsAs (Command.Check program asm)
        (change_of S.held S.said S.calls S.faults shelf.old shelf.new) result }
{
    let Ok(output) = output_name(alloc) else {
        return Status::OutOfMemory;
    };
    let program = match load_program(alloc, program, shelf) {
        Ok(program) => program,
        Err(status) => return status,
    };
    let listing = match load_listing(alloc, asm, shelf) {
        Ok(listing) => listing,
        Err(status) => return status,
    };
    match text(alloc, program, &listing) {
        Ok(text) => say_text(text.as_bytes(), output, shelf),
        Err(status) => status,
    }
}

/// What is said of a listing that is proved for the program, or the status that says why it is not.
fn text(alloc: Global, program: Program, listing: &Listing) -> Result<&'static str, Status>
    ensures text { IfOk result (λ text. CheckMeans (files.Program program ∷ files.Listing listing.now ∷ [])
        (says text.now)) }
    ensures refused { IfErr result (RefusesWork (CheckRefuses
        (files.Program program ∷ files.Listing listing.now ∷ []))) }
{
    match verdict(alloc, program, listing) {
        Ok(Verdict::Proved(_)) => Ok("proved\n"),
        Ok(Verdict::Not(why)) => Err(Status::Not(why)),
        Err(_) => Err(Status::OutOfMemory),
    }
}

/// Whether the listing is proved for the program. The one error is want of memory.
fn verdict(alloc: Global, program: Program, listing: &Listing) -> Result<Verdict, AllocError>
    ensures verdict { IfOk result (IsVerdict program listing.now.lines) }
    ensures correct { IfOk result (SaysCorrect program listing.now.lines) }
{
    let program = Arc::new(alloc, program)?;
    let prepared = Prepared::new(alloc, program)?;
    check(alloc, &prepared, listing)
}
