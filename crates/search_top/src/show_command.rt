ghost use Rattle.command_frame.specs.Change.{change_of};
ghost use Rattle.search_top.specs.Commands.{EndsAs};

use asm_text::write;
use base::Text;
use command_frame::{Status, load_listing, output_name, say_text};
use command_line::Command;
use io_ports::Shelf;
use std::alloc::Global;

/// Says the text of the listing in a file.
pub fn show_file<S: Shelf>(alloc: Global, asm: Text, shelf: &mut S) -> Status
    ensures { EndsAs (Command.Show asm)
        (change_of S.held S.said S.calls S.faults shelf.old shelf.new) result }
{
    let Ok(output) = output_name(alloc) else {
        return Status::OutOfMemory;
    };
    let listing = match load_listing(alloc, asm, shelf) {
        Ok(listing) => listing,
        Err(status) => return status,
    };
    match write(alloc, &listing) {
        Ok(text) => say_text(text.as_slice(), output, shelf),
        Err(_) => Status::OutOfMemory,
    }
}
