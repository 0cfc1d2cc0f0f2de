//! The nodes of a program.

ghost use Rattle.std.specs.Prelude.{◌≡◌, ◌+◌, ◌-◌, ◌*◌, ◌^◌, ◌<◌, ◌≤◌, ◌++◌, [], ◌∷◌, length, map, fold, position};
ghost use Rattle.std.specs.Prelude.{slice_index, IfOk, OnOk};
ghost use Rattle.std.specs.List.{AllByRecursion, range_with_len};
ghost use Rattle.base.specs.declared.limits.TheConstants.{MAX_OPERATIONS};
ghost use Rattle.word_program.specs.Accepted.{AreOps, IsParam};
ghost use Rattle.word_program.specs.Values as values;
ghost use Rattle.terms.specs.Tables.{IsTable};
ghost use Rattle.terms.specs.Grown.{IsGrown};
ghost use Rattle.program_nodes.specs.Operands.{IsProgramForm};
ghost use Rattle.program_nodes.specs.Sources as sources;

use crate::inputs::{input_nodes, start_nodes};
use crate::operands::{number_at, push_op};
use std::alloc::{AllocError, Global};
use std::marker::Model;
use term_store::Store;
use word_program::{Op, Param, Program, Target, is_output};

/// The nodes of a program's output words, in the order of the parameters.
#[derive(Drop)]
pub struct SourceNodes {
    outputs: Vec<u32>,
}

impl Model for SourceNodes {
    ghost use Rattle.std.specs.Prelude.{ℕ, List};

    ghost Value = { List ℕ };

    ghost view = { λ s. s.outputs.items };
}

impl SourceNodes {
    /// The node of an output word, by its place among the output words of all parameters.
    pub fn output(&self, word: u32) -> u32
        requires { word < length self.now }
        ensures { result ≡ slice_index self.now word }
    {
        self.outputs[word as usize]
    }

    /// The nodes of the output words.
    pub fn outputs(&self) -> &[u32]
        ensures { result.now ≡ self.now }
    {
        self.outputs.as_slice()
    }
}

/// The nodes of the values of operations, in order.
fn value_nodes(
    alloc: Global,
    store: &mut Store,
    params: &[Param],
    ops: &[Op],
) -> Result<Vec<u32>, AllocError>
    requires room { length store.now < 2 ^ 30 }
    requires few { length ops.now ≤ MAX_OPERATIONS }
    requires params { AllByRecursion IsParam params.now }
    requires legal { AreOps params.now [] ops.now }
    requires table { IsTable store.now }
    requires grown { IsGrown (IsProgramForm params.now) store.now }
    ensures { IfOk result (λ numbers. record { table = store.new; numbers = numbers.items }
        ≡ fold (sources.and_op params.entry.now) (record { table = store.old; numbers = [] }) ops.entry.now) }
{
    let mut numbers = Vec::new(alloc);
    for op in ops {
        push_op(alloc, store, params, &mut numbers, op)?;
    }
    Ok(numbers)
}

/// Whether the target is this output word.
fn is_at(param: usize, word: usize, target: Target) -> bool
    ensures { result ≡ values.is_at param word target }
{
    match target {
        Target::Value | Target::Unused => false,
        Target::Output { param: q, word: x } => q as usize == param && x as usize == word,
    }
}

fn target_place(targets: &[Target], param: usize, word: usize) -> Option<usize>
    ensures { result ≡ position (values.is_at param word) targets.now }
{
    targets
        .iter()
        .position(|target| is_at(param, word, *target))
}

/// The node of the value that goes to this output word.
fn stored_node(targets: &[Target], numbers: &[u32], param: usize, word: usize) -> u32
    ensures { result ≡ values.stored_word targets.now numbers.now param word }
{
    match target_place(targets, param, word) {
        Some(place) => number_at(numbers, place),
        None => 0,
    }
}

/// Puts the nodes of the words of an output parameter at the end of a list.
#[tactic(auto, using(crate::proofs::FormSteps::words_step))]
fn push_words(
    nodes: &mut Vec<u32>,
    targets: &[Target],
    numbers: &[u32],
    param: usize,
    count: usize,
) -> Result<(), AllocError>
    ensures { OnOk result (nodes.new.items ≡ nodes.old.items
        ++ map (values.stored_word targets.entry.now numbers.entry.now param) (range_with_len 0 count)) }
{
    for word in 0..count {
        nodes.push(stored_node(targets, numbers, param, word))?;
    }
    Ok(())
}

/// The nodes of the output words, in the order of the parameters.
fn output_nodes(
    alloc: Global,
    params: &[Param],
    targets: &[Target],
    numbers: &[u32],
) -> Result<Vec<u32>, AllocError>
    ensures { IfOk result (λ nodes. nodes.items
        ≡ values.outputs_from targets.entry.now numbers.entry.now 0 params.entry.now) }
{
    let mut nodes = Vec::new(alloc);
    let mut number = 0;
    for param in params {
        if is_output(param.role) {
            push_words(
                &mut nodes,
                targets,
                numbers,
                number,
                param.bounds.items().len(),
            )?;
        }
        number += 1;
    }
    Ok(nodes)
}

/// Makes the nodes of a program in an empty table: those of the registers' starts, then those of the input words, and
/// then for each operation those of its operands and of its results. The one error is want of memory.
#[tactic(auto, unfolding(crate::specs::Sources::source_made, crate::specs::Sources::source_outputs))]
pub fn source(
    alloc: Global,
    store: &mut Store,
    program: &Program,
) -> Result<SourceNodes, AllocError>
    requires { store.now ≡ [] }
    ensures table { OnOk result (store.new ≡ (sources.source_made program.entry.now).table) }
    ensures outputs { IfOk result (λ nodes. nodes ≡ sources.source_outputs program.entry.now) }
{
    let params = program.params();
    start_nodes(store)?;
    input_nodes(store, params)?;
    let numbers = value_nodes(alloc, store, params, program.ops())?;
    let outputs = output_nodes(alloc, params, program.targets(), numbers.as_slice())?;
    Ok(SourceNodes { outputs })
}
