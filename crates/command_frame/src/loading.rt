ghost use Rattle.std.specs.Prelude.{◌≡◌, ◌≤◌, ℕ, List, Some, length, vec_len, IfOk, IfErr, IfSome};
ghost use Rattle.command_frame.specs.Change.{change_of};
ghost use Rattle.command_frame.specs.Files as files;
ghost use Rattle.command_frame.specs.Loading.{Fails, Fits, Loads};

use crate::format::{ASM_LIMIT, Format, PROGRAM_LIMIT, limit_of};
use crate::status::Status;
use asm_text::TextFault;
use base::Text;
use fiat_json::ReadFault;
use io_ports::{Fault, Shelf};
use std::alloc::Global;
use word_program::Program;
use x86_instr::{Listing, ListingFault};

/// The program in the file of this name, or the status of the command that wants it.
pub fn load_program<S: Shelf>(alloc: Global, name: Text, shelf: &mut S) -> Result<Program, Status>
    ensures program { IfOk result (λ p. Loads (record { name = name; format = Format.Program }) (files.Program p)
        (change_of S.held S.said S.calls S.faults shelf.old shelf.new)) }
    ensures refused { IfErr result (λ status. Fails (record { name = name; format = Format.Program })
        (change_of S.held S.said S.calls S.faults shelf.old shelf.new) status) }
{
    match bytes_of(alloc, name, Format::Program, shelf) {
        Ok(bytes) => read_program(alloc, bytes.as_slice()),
        Err(status) => Err(status),
    }
}

/// The listing whose text is in the file of this name, or the status of the command that wants it.
pub fn load_listing<S: Shelf>(alloc: Global, name: Text, shelf: &mut S) -> Result<Listing, Status>
    ensures listing { IfOk result (λ l. Loads (record { name = name; format = Format.Listing }) (files.Listing l)
        (change_of S.held S.said S.calls S.faults shelf.old shelf.new)) }
    ensures refused { IfErr result (λ status. Fails (record { name = name; format = Format.Listing })
        (change_of S.held S.said S.calls S.faults shelf.old shelf.new) status) }
{
    match bytes_of(alloc, name, Format::Listing, shelf) {
        Ok(bytes) => read_listing(alloc, bytes.as_slice()),
        Err(status) => Err(status),
    }
}

/// The bytes of a file that is to be read as this, which are not too many.
pub fn bytes_of<S: Shelf>(
    alloc: Global,
    name: Text,
    format: Format,
    shelf: &mut S,
) -> Result<Vec<u8>, Status>
    ensures content { IfOk result (λ bytes. Fits (record { name = name; format = format }) bytes.items
        (change_of S.held S.said S.calls S.faults shelf.old shelf.new)) }
    ensures refused { IfErr result (λ status. Fails (record { name = name; format = format })
        (change_of S.held S.said S.calls S.faults shelf.old shelf.new) status) }
{
    match shelf.load(alloc, name.as_str(), limit_of(format)) {
        Ok(bytes) => Ok(bytes),
        Err(Fault::Failed) => Err(Status::ReadFault(name)),
        Err(Fault::TooLong) => Err(Status::TooLong(name, limit_of(format))),
        Err(Fault::Memory) => Err(Status::OutOfMemory),
    }
}

/// The program that the bytes are, or the status of the command that wants it.
pub fn read_program(alloc: Global, bytes: &[u8]) -> Result<Program, Status>
    requires { length bytes.now ≤ PROGRAM_LIMIT }
    ensures program { IfOk result (λ p. files.IsRead Format.Program (Some bytes.now) (files.Program p)) }
    ensures refused { IfErr result (λ status. files.RefusesFile status Format.Program (Some bytes.now)) }
{
    let program = match fiat_json::read_program(alloc, bytes) {
        Ok(program) => program,
        Err(ReadFault::NotJson) => return Err(Status::NotJson),
        Err(ReadFault::Program { code, place }) => return Err(Status::Program(code, place)),
        Err(ReadFault::Memory) => return Err(Status::OutOfMemory),
    };
    let _ = program.params();
    Ok(program)
}

/// The listing whose text the bytes are, or the status of the command that wants it.
fn read_listing(alloc: Global, bytes: &[u8]) -> Result<Listing, Status>
    requires { length bytes.now ≤ ASM_LIMIT }
    ensures listing { IfOk result (λ l. files.IsRead Format.Listing (Some bytes.now) (files.Listing l)) }
    ensures refused { IfErr result (λ status. files.RefusesFile status Format.Listing (Some bytes.now)) }
{
    match asm_text::read(alloc, bytes) {
        Ok(listing) => Ok(listing),
        Err(TextFault::Line(number)) => Err(Status::Text(number)),
        Err(TextFault::TooLong) => Err(Status::Listing(ListingFault::TooLong)),
        Err(TextFault::NoReturn) => Err(Status::Listing(ListingFault::NoReturn)),
        Err(TextFault::Memory) => Err(Status::OutOfMemory),
    }
}
