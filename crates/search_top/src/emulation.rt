ghost use Rattle.std.specs.Prelude.{◌≡◌, [], ◌∷◌, ◌++◌, ◌<◌, ◌≤◌, IfOk, IfErr, OnOk, length, string_bytes};
ghost use Rattle.std.specs.List.{AllByRecursion};
ghost use Rattle.word_program.specs.Accepted.{IsParam};
ghost use Rattle.x86_meaning.specs.Stated.{array_address};
ghost use Rattle.search_top.specs.Outputs as spec;
ghost use Rattle.command_frame.specs.Ends.{RefusesWork};
ghost use Rattle.command_frame.specs.Files as files;
ghost use Rattle.command_frame.specs.Writes.{says};
ghost use Rattle.search_top.specs.Emulate.{EmulateMeans, EmulateRefuses, cell_word, words_at, words_from};

use crate::outputs::{is_output, output_lines};
use command_frame::Status;
use std::alloc::{AllocError, Global};
use word_program::{EvalFault, Param, Program};
use x86_instr::Listing;
use x86_meaning::{Cells, State, run};

/// The bytes from the begin of one parameter's array to that of the next one, in the stated start state.
const ARRAY_STEP: u64 = 65_536;

/// The lines of the words that a listing leaves in the output arrays, when it runs from the stated start state
/// for the program on these inputs, or the status of the command that wants them.
pub fn text(
    alloc: Global,
    program: &Program,
    listing: &Listing,
    inputs: &[u64],
) -> Result<String, Status>
    ensures text { IfOk result (λ text. EmulateMeans inputs.now
        (files.Program program.now ∷ files.Listing listing.now ∷ [])
        (says (string_bytes text))) }
    ensures refused { IfErr result (RefusesWork (EmulateRefuses inputs.now
        (files.Program program.now ∷ files.Listing listing.now ∷ []))) }
{
    let mut state = match State::start(alloc, program, listing, inputs) {
        Ok(state) => state,
        Err(EvalFault::Count { given, wanted }) => return Err(Status::Inputs { given, wanted }),
        Err(EvalFault::OutOfBounds { word }) => return Err(Status::OutOfBounds(word)),
        Err(EvalFault::Memory) => return Err(Status::OutOfMemory),
    };
    if let Err(stuck) = run(listing, &mut state) {
        return Err(Status::Stuck(stuck.line));
    }
    match cell_lines(alloc, program.params(), &state.cells) {
        Ok(lines) => Ok(lines),
        Err(_) => Err(Status::OutOfMemory),
    }
}

/// The lines of the words in the output arrays.
fn cell_lines(alloc: Global, params: &[Param], cells: &Cells) -> Result<String, AllocError>
    requires few { length params.now ≤ 6 }
    requires params { AllByRecursion IsParam params.now }
    ensures { IfOk result (λ lines. string_bytes lines ≡ spec.output_lines params.now
        (words_from cells.now 0 params.now)) }
{
    let words = output_words(alloc, params, cells)?;
    output_lines(alloc, params, words.as_slice())
}

/// The words in the output arrays, in the order of the parameters.
fn output_words(alloc: Global, params: &[Param], cells: &Cells) -> Result<Vec<u64>, AllocError>
    requires few { length params.now ≤ 6 }
    requires params { AllByRecursion IsParam params.now }
    ensures { IfOk result (λ words. words.items ≡ words_from cells.now 0 params.now) }
{
    let mut words = Vec::new(alloc);
    for (number, param) in params.iter().enumerate() {
        if is_output(param.role) {
            push_array(&mut words, cells, number as u64, param)?;
        }
    }
    Ok(words)
}

/// Puts the words in the array of the parameter with this number behind the words so far.
#[tactic(auto, using(crate::proofs::OutputWords::words_none, crate::proofs::OutputWords::words_more))]
fn push_array(
    words: &mut Vec<u64>,
    cells: &Cells,
    number: u64,
    param: &Param,
) -> Result<(), AllocError>
    requires few { number < 6 }
    requires param { length param.now.bounds ≤ 32 }
    ensures { OnOk result (words.new.items ≡ words.old.items
        ++ words_at cells.entry.now (array_address number) (length param.entry.now.bounds)) }
{
    let first = ARRAY_STEP * (number + 1);
    for word in 0..param.bounds.items().len() as u64 {
        words.push(cell_word(cells, first + 8 * word))?;
    }
    Ok(())
}

/// The word in a cell, and 0 where there is none.
fn cell_word(cells: &Cells, address: u64) -> u64
    ensures { result ≡ cell_word cells.now address }
{
    match cells.get(address) {
        Some(word) => word,
        None => 0,
    }
}
