ghost use Rattle.std.specs.Prelude.{◌≡◌, ◌≤◌, Some, length, IfOk, IfErr};
ghost use Rattle.command_frame.specs.Change.{change_of};
ghost use Rattle.command_frame.specs.Files as files;
ghost use Rattle.command_frame.specs.Loading.{Fails, Loads};

use crate::format::{Format, PROGRAM_LIMIT};
use crate::loading::{bytes_of, read_program};
use crate::status::Status;
use base::Text;
use io_ports::Shelf;
use std::alloc::Global;
use word_program::Program;

/// A program, and the digest of the file that it was read from.
#[derive(Drop)]
pub struct DigestedProgram {
    /// The program.
    pub program: Program,
    /// The SHA-256 of the file's bytes.
    pub digest: [u8; 32],
}

/// The program in the file of this name and the SHA-256 of the file's bytes, or the status of the command that wants
/// them. The file is opened and read once, and its bytes are digested once.
pub fn load_digested_program<S: Shelf>(
    alloc: Global,
    name: Text,
    shelf: &mut S,
) -> Result<DigestedProgram, Status>
    ensures program { IfOk result (λ d. Loads (record { name = name; format = Format.DigestedProgram })
        (files.DigestedProgram d.program d.digest)
        (change_of S.held S.said S.calls S.faults shelf.old shelf.new)) }
    ensures refused { IfErr result (λ status. Fails (record { name = name; format = Format.DigestedProgram })
        (change_of S.held S.said S.calls S.faults shelf.old shelf.new) status) }
{
    match bytes_of(alloc, name, Format::DigestedProgram, shelf) {
        Ok(bytes) => read_digested(alloc, bytes.as_slice()),
        Err(status) => Err(status),
    }
}

/// The program that the bytes are, and their digest.
#[tactic(auto, using(crate::proofs::Programs::as_digested))]
fn read_digested(alloc: Global, bytes: &[u8]) -> Result<DigestedProgram, Status>
    requires { length bytes.now ≤ PROGRAM_LIMIT }
    ensures program { IfOk result (λ d. files.IsRead Format.DigestedProgram (Some bytes.now)
        (files.DigestedProgram d.program d.digest)) }
    ensures refused { IfErr result (λ status. files.RefusesFile status Format.DigestedProgram (Some bytes.now)) }
{
    match read_program(alloc, bytes) {
        Ok(program) => Ok(DigestedProgram {
            program,
            digest: journal_text::digest(bytes),
        }),
        Err(status) => Err(status),
    }
}
