ghost use Rattle.std.specs.Prelude.{◌≡◌, [], ◌∷◌, IfOk, IfErr, string_bytes};
ghost use Rattle.command_frame.specs.Change.{change_of};
ghost use Rattle.command_frame.specs.Ends.{RefusesWork};
ghost use Rattle.command_frame.specs.Files as files;
ghost use Rattle.command_frame.specs.Writes.{says};
ghost use Rattle.search_top.specs.Commands.{EndsAs};
ghost use Rattle.search_top.specs.Eval.{EvalMeans, EvalRefuses};

use crate::outputs::output_lines;
use base::Text;
use command_frame::{Status, load_program, output_name, say_text};
use command_line::Command;
use io_ports::Shelf;
use std::alloc::Global;
use word_program::{EvalFault, Program, eval};

/// Says the outputs of the program in a file on these inputs.
pub fn eval_file<S: Shelf>(alloc: Global, program: Text, inputs: &[u64], shelf: &mut S) -> Status
    ensures { EndsAs (Command.Eval program inputs.now)
        (change_of S.held S.said S.calls S.faults shelf.old shelf.new) result }
{
    let Ok(output) = output_name(alloc) else {
        return Status::OutOfMemory;
    };
    let program = match load_program(alloc, program, shelf) {
        Ok(program) => program,
        Err(status) => return status,
    };
    match text(alloc, &program, inputs) {
        Ok(text) => say_text(text.as_bytes(), output, shelf),
        Err(status) => status,
    }
}

/// The lines of the outputs.
fn text(alloc: Global, program: &Program, inputs: &[u64]) -> Result<String, Status>
    ensures text { IfOk result (λ text. EvalMeans inputs.now (files.Program program.now ∷ [])
        (says (string_bytes text))) }
    ensures refused { IfErr result (RefusesWork (EvalRefuses inputs.now (files.Program program.now ∷ []))) }
{
    let words = match eval(alloc, program, inputs) {
        Ok(words) => words,
        Err(EvalFault::Count { given, wanted }) => return Err(Status::Inputs { given, wanted }),
        Err(EvalFault::OutOfBounds { word }) => return Err(Status::OutOfBounds(word)),
        Err(EvalFault::Memory) => return Err(Status::OutOfMemory),
    };
    match output_lines(alloc, program.params(), words.as_slice()) {
        Ok(text) => Ok(text),
        Err(_) => Err(Status::OutOfMemory),
    }
}
