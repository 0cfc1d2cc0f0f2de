ghost use Rattle.std.specs.Prelude.{◌≡◌, ◌≤◌, ◌<◌, ◌+◌, ◌++◌, [], ℕ, length, map, position, slice_index, IfOk, IfErr};
ghost use Rattle.std.specs.Prelude.{OnOk};
ghost use Rattle.std.specs.List.{AllByRecursion, range_with_len};
ghost use Rattle.base.specs.declared.limits.TheConstants.{MAX_PARAMS};
ghost use Rattle.word_program.specs.Accepted.{IsParam};
ghost use Rattle.word_program.specs.Evaluates.{Refuses};
ghost use Rattle.word_program.specs.Values as values;

use crate::inputs::{input_bounds, offset_of, outside};
use crate::lookup::{is_at, is_output};
use crate::operation::{Op, Operand, Target};
use crate::parameter::Param;
use crate::program::Program;
use std::alloc::{AllocError, Global};
use thiserror::Error;
use word_operations::push_results;

/// Why an evaluation gives no outputs.
#[derive(Clone, Copy, Debug, PartialEq, Eq, Error)]
pub enum EvalFault {
    /// The program has another number of input words.
    #[error("{given} input words were given, and the program has {wanted}")]
    Count { given: u64, wanted: u64 },
    /// This is the first input word outside its bounds, counted from 0.
    #[error("input word {word} is out of its bounds")]
    OutOfBounds { word: u32 },
    /// There is no memory left.
    #[error("out of memory")]
    Memory,
}

fn word_or(words: &[u64], place: usize) -> u64
    ensures { result ≡ slice_index words.now place }
{
    match words.get(place) {
        Some(word) => *word,
        None => 0,
    }
}

/// The word that an operand stands for, from the values so far.
fn operand_word(params: &[Param], inputs: &[u64], so_far: &[u64], operand: Operand) -> u64
    requires few { length params.now ≤ MAX_PARAMS }
    requires params { AllByRecursion IsParam params.now }
    ensures { result ≡ values.operand_word params.now inputs.now so_far.now operand }
{
    match operand {
        Operand::Literal(number) => number,
        Operand::Input { param, word } => {
            word_or(inputs, offset_of(params, param as usize) + word as usize)
        }
        Operand::Value(number) => word_or(so_far, number as usize),
    }
}

/// The word of the operand at a place of an operation, or 0 where there is none.
fn arg_word(params: &[Param], inputs: &[u64], so_far: &[u64], args: &[Operand], place: usize) -> u64
    requires few { length params.now ≤ MAX_PARAMS }
    requires params { AllByRecursion IsParam params.now }
    ensures { result ≡ slice_index (map (values.operand_word params.now inputs.now so_far.now) args.now) place }
{
    match args.get(place) {
        Some(operand) => operand_word(params, inputs, so_far, *operand),
        None => 0,
    }
}

/// Puts the results of an operation behind the values so far.
fn push_op(
    so_far: &mut Vec<u64>,
    params: &[Param],
    inputs: &[u64],
    op: &Op,
) -> Result<(), AllocError>
    requires few { length params.now ≤ MAX_PARAMS }
    requires params { AllByRecursion IsParam params.now }
    ensures { OnOk result (so_far.new.items ≡ so_far.old.items
        ++ values.op_words params.entry.now inputs.entry.now so_far.old.items op.entry.now) }
{
    let a = arg_word(params, inputs, so_far.as_slice(), op.args.items(), 0);
    let b = arg_word(params, inputs, so_far.as_slice(), op.args.items(), 1);
    let c = arg_word(params, inputs, so_far.as_slice(), op.args.items(), 2);
    push_results(so_far, op.kind, a, b, c)
}

/// The values of the operations in order.
fn values_of(
    alloc: Global,
    params: &[Param],
    ops: &[Op],
    inputs: &[u64],
) -> Result<Vec<u64>, AllocError>
    requires few { length params.now ≤ MAX_PARAMS }
    requires params { AllByRecursion IsParam params.now }
    ensures { IfOk result (λ words. words.items ≡ values.values_on params.entry.now inputs.entry.now [] ops.entry.now) }
{
    let mut so_far = Vec::new(alloc);
    for op in ops {
        push_op(&mut so_far, params, inputs, op)?;
    }
    Ok(so_far)
}

fn target_place(targets: &[Target], param: usize, word: usize) -> Option<usize>
    ensures { result ≡ position (values.is_at param word) targets.now }
{
    targets
        .iter()
        .position(|target| is_at(param, word, *target))
}

/// The word among the values that goes to this output word.
fn stored_word(targets: &[Target], so_far: &[u64], param: usize, word: usize) -> u64
    ensures { result ≡ values.stored_word targets.now so_far.now param word }
{
    match target_place(targets, param, word) {
        Some(place) => word_or(so_far, place),
        None => 0,
    }
}

/// Puts the words of an output parameter at the end of a vector.
#[tactic(auto, using(crate::proofs::InputLemmas::words_step))]
fn push_words(
    words: &mut Vec<u64>,
    targets: &[Target],
    so_far: &[u64],
    param: usize,
    count: usize,
) -> Result<(), AllocError>
    ensures { OnOk result (words.new.items ≡ words.old.items
        ++ map (values.stored_word targets.entry.now so_far.entry.now param) (range_with_len 0 count)) }
{
    for word in 0..count {
        words.push(stored_word(targets, so_far, param, word))?;
    }
    Ok(())
}

/// The output words, in the order of the parameters.
fn outputs(
    alloc: Global,
    params: &[Param],
    targets: &[Target],
    so_far: &[u64],
) -> Result<Vec<u64>, AllocError>
    ensures { IfOk result (λ words. words.items
        ≡ values.outputs_from targets.entry.now so_far.entry.now 0 params.entry.now) }
{
    let mut words = Vec::new(alloc);
    let mut number = 0;
    for param in params {
        if is_output(param.role) {
            push_words(
                &mut words,
                targets,
                so_far,
                number,
                param.bounds.items().len(),
            )?;
        }
        number += 1;
    }
    Ok(words)
}

fn memory(_: AllocError) -> EvalFault
    ensures { result ≡ EvalFault.Memory }
{
    EvalFault::Memory
}

/// Whether these words are inputs of a program: as many as it has, each within its bounds. Where the number
/// of words is another than the program's, the fault is `Count`, else where a word is out of its bounds, it is
/// `OutOfBounds` of the first one.
#[tactic(auto, using(crate::proofs::InputLemmas::within_by))]
pub fn check_inputs(alloc: Global, program: &Program, inputs: &[u64]) -> Result<(), EvalFault>
    ensures within { OnOk result (values.AreWithin inputs.now (values.input_bounds program.now.params)) }
    ensures err { IfErr result (λ fault. Refuses program.entry.now inputs.entry.now fault) }
{
    let bounds = input_bounds(alloc, program.params()).map_err(memory)?;
    let wanted = bounds.as_slice().len();
    if inputs.len() != wanted {
        return Err(EvalFault::Count {
            given: inputs.len() as u64,
            wanted: wanted as u64,
        });
    }
    if let Some(word) = outside(inputs, bounds.as_slice()) {
        return Err(EvalFault::OutOfBounds { word: word as u32 });
    }
    Ok(())
}

/// The output words of a program on these input words, both in the order of the parameters. The faults are
/// those of [`check_inputs`], and come where they come there.
pub fn eval(alloc: Global, program: &Program, inputs: &[u64]) -> Result<Vec<u64>, EvalFault>
    ensures within { OnOk result (values.AreWithin inputs.now (values.input_bounds program.now.params)) }
    ensures outputs { IfOk result (λ words. words.items ≡ values.outputs program.entry.now inputs.entry.now) }
    ensures err { IfErr result (λ fault. Refuses program.entry.now inputs.entry.now fault) }
{
    check_inputs(alloc, program, inputs)?;
    let params = program.params();
    let so_far = values_of(alloc, params, program.ops(), inputs).map_err(memory)?;
    let words = outputs(alloc, params, program.targets(), so_far.as_slice()).map_err(memory)?;
    Ok(words)
}
