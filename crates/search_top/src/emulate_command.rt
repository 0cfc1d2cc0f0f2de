ghost use Rattle.command_frame.specs.Change.{change_of};
ghost use Rattle.search_top.specs.Commands.{EndsAs};

use crate::emulation::text;
use base::Text;
use command_frame::{Status, load_listing, load_program, output_name, say_text};
use command_line::Command;
use io_ports::Shelf;
use std::alloc::Global;

/// Says the words that the listing in the file `asm` leaves in the output cells, when it runs from the stated
/// start state for the program in the other file on these inputs.
pub fn emulate_file<S: Shelf>(
    alloc: Global,
    program: Text,
    asm: Text,
    inputs: &[u64],
    shelf: &mut S,
) -> Status
    ensures { EndsAs (Command.Emulate program asm inputs.now)
        (change_of S.held S.said S.calls S.faults shelf.old shelf.new) result }
{
    let Ok(output) = output_name(alloc) else {
        return Status::OutOfMemory;
    };
    let program = match load_program(alloc, program, shelf) {
        Ok(program) => program,
        Err(status) => return status,
    };
    let listing = match load_listing(alloc, asm, shelf) {
        Ok(listing) => listing,
        Err(status) => return status,
    };
    match text(alloc, &program, &listing, inputs) {
        Ok(text) => say_text(text.as_bytes(), output, shelf),
        Err(status) => status,
    }
}
