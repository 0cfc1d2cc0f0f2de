ghost use Rattle.std.specs.Prelude.{◌≡◌, ◌⊎◌, None, IfSome, map, string_bytes};
ghost use Rattle.command_frame.specs.Change.{IsIdle, change_of};
ghost use Rattle.search_top.specs.Commands.{EndsAs, other_command};

use crate::check_command::check_file;
use crate::emulate_command::emulate_file;
use crate::eval_command::eval_file;
use crate::replay_command::{ReplayFiles, replay_files};
use crate::show_command::show_file;
use command_frame::Status;
use command_line::{Command, command_of};
use io_ports::Shelf;
use std::alloc::Global;

/// Runs a command that waits for nobody.
///
/// - `eval PROGRAM [--in LIST]` reads the file PROGRAM, evaluates the program on the words of LIST, and says a
///   line for each output word.
/// - `emulate PROGRAM ASM [--in LIST]` also reads the file ASM, runs its listing from the stated start state of
///   the program on the words of LIST, and says a line for each word that it leaves in the output arrays.
/// - `check PROGRAM ASM` reads the files PROGRAM and ASM, and says `proved` where the listing is proved for the
///   program. It is then correct for it.
/// - `show ASM` reads the file ASM, and says the canonical text of its listing.
/// - `replay PROGRAM JOURNAL ASM` reads the three files, draws each mutation of the journal again, and says its counts
///   where the journal is a legal and whole one of the program, and the listing is a proved one of the plan of the
///   journal's last number of least cost, and has this cost.
///
/// The refusals come in the order in which the files are read: [`Status::Usage`]; for PROGRAM
/// [`Status::ReadFault`], [`Status::TooLong`], [`Status::NotJson`] and [`Status::Program`]; for JOURNAL
/// [`Status::ReadFault`], [`Status::TooLong`], [`Status::Version`] and [`Status::Journal`]; for ASM
/// [`Status::ReadFault`], [`Status::TooLong`], [`Status::Text`] and [`Status::Listing`]; [`Status::Inputs`] and
/// [`Status::OutOfBounds`]; [`Status::Stuck`], [`Status::Not`] of `check`, and [`Status::Replay`]; and last
/// [`Status::WriteFault`] of standard output. [`Status::OutOfMemory`] comes only before that.
pub fn command<S: Shelf>(alloc: Global, words: &[String], shelf: &mut S) -> Status
    // `Usage` comes exactly where the words are none of these commands, or there is no memory to read them apart.
    // Nothing is then done.
    ensures usage { result ≡ Status.Usage → other_command (map string_bytes words.now) ≡ None }
    ensures unknown { other_command (map string_bytes words.now) ≡ None
        → (result ≡ Status.Usage) ⊎ (result ≡ Status.OutOfMemory) }
    ensures idle { other_command (map string_bytes words.now) ≡ None
        → IsIdle (change_of S.held S.said S.calls S.faults shelf.old shelf.new) }

    // What each other status says of the files and of what was said.
    ensures answer { IfSome (other_command (map string_bytes words.now))
        (λ command. EndsAs command (change_of S.held S.said S.calls S.faults shelf.old shelf.new) result) }
{
    match command_of(alloc, words) {
        Ok(Some(Command::Eval { program, inputs })) => {
            eval_file(alloc, program, inputs.items(), shelf)
        }
        Ok(
            Some(
                Command::Emulate {
                    program,
                    asm,
                    inputs,
                },
            ),
        ) => emulate_file(alloc, program, asm, inputs.items(), shelf),
        Ok(Some(Command::Check { program, asm })) => check_file(alloc, program, asm, shelf),
        Ok(Some(Command::Show { asm })) => show_file(alloc, asm, shelf),
        Ok(
            Some(
                Command::Replay {
                    program,
                    journal,
                    asm,
                },
            ),
        ) => {
            let names = ReplayFiles {
                program,
                journal,
                asm,
            };
            replay_files(alloc, names, shelf)
        }
        Ok(Some(Command::Search { .. })) | Ok(Some(Command::SearchLanes { .. })) | Ok(None) =>
            Status::Usage,
        Err(_) => Status::OutOfMemory,
    }
}
