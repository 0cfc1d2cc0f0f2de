ghost use Rattle.std.specs.Prelude.{◌≡◌, ◌≤◌, Some, length, IfOk, IfErr};
ghost use Rattle.command_frame.specs.Change.{change_of};
ghost use Rattle.command_frame.specs.Files as files;
ghost use Rattle.command_frame.specs.Loading.{Fails, Loads};

use crate::format::{Format, JOURNAL_LIMIT};
use crate::loading::bytes_of;
use crate::status::Status;
use base::Text;
use io_ports::Shelf;
use journal_rules::Journal;
use journal_text::JournalFault;
use std::alloc::Global;

/// The journal whose text is in the file of this name, or the status of the command that wants it.
pub fn load_journal<S: Shelf>(alloc: Global, name: Text, shelf: &mut S) -> Result<Journal, Status>
    ensures journal { IfOk result (λ j. Loads (record { name = name; format = Format.Journal }) (files.Journal j)
        (change_of S.held S.said S.calls S.faults shelf.old shelf.new)) }
    ensures refused { IfErr result (λ status. Fails (record { name = name; format = Format.Journal })
        (change_of S.held S.said S.calls S.faults shelf.old shelf.new) status) }
{
    match bytes_of(alloc, name, Format::Journal, shelf) {
        Ok(bytes) => read_journal(alloc, bytes.as_slice()),
        Err(status) => Err(status),
    }
}

/// The journal whose text the bytes are, or the status of the command that wants it.
fn read_journal(alloc: Global, bytes: &[u8]) -> Result<Journal, Status>
    requires { length bytes.now ≤ JOURNAL_LIMIT }
    ensures journal { IfOk result (λ j. files.IsRead Format.Journal (Some bytes.now) (files.Journal j)) }
    ensures refused { IfErr result (λ status. files.RefusesFile status Format.Journal (Some bytes.now)) }
{
    match journal_text::read(alloc, bytes) {
        Ok(journal) => Ok(journal),
        Err(JournalFault::Line(number)) => Err(Status::Journal(number)),
        Err(JournalFault::Version { found }) => Err(Status::Version(found)),
        Err(JournalFault::Memory) => Err(Status::OutOfMemory),
    }
}
