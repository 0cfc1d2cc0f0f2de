//! The nodes of operands and of operations.

ghost use Rattle.std.specs.Prelude.{◌≡◌, ◌+◌, ◌-◌, ◌*◌, ◌^◌, ◌<◌, ◌≤◌, ◌++◌, [], ◌∷◌, length, slice_index, IfOk, OnOk};
ghost use Rattle.std.specs.List.{AllByRecursion};
ghost use Rattle.word_program.specs.Accepted.{IsParam};
ghost use Rattle.program_nodes.specs.Operands.{IsNextOp};
ghost use Rattle.program_nodes.specs.Sources as sources;

use crate::forms::make;
use crate::inputs::input_form;
use crate::results::push_results;
use std::alloc::{AllocError, Global};
use term_store::Store;
use terms::Form;
use word_program::{Op, Operand, Param};

/// The number at a place, or 0 where there is none.
pub fn number_at(numbers: &[u32], place: usize) -> u32
    ensures { result ≡ slice_index numbers.now place }
{
    match numbers.get(place) {
        Some(number) => *number,
        None => 0,
    }
}

/// The node of an operand.
fn operand_node(
    store: &mut Store,
    params: &[Param],
    values: &[u32],
    operand: Operand,
) -> Result<u32, AllocError>
    requires { length store.now < 2 ^ 32 - 1 }
    ensures table { OnOk result (store.new
        ≡ (sources.operand_made params.entry.now values.entry.now store.old operand).table) }
    ensures number { IfOk result (λ number. number ∷ []
        ≡ (sources.operand_made params.entry.now values.entry.now store.old operand).numbers) }
    ensures few { length store.new ≤ length store.old + 1 }
{
    match operand {
        Operand::Literal(number) => make(store, Form::Const(number)),
        Operand::Input { param, word } => make(store, input_form(params, param, word)),
        Operand::Value(number) => Ok(number_at(values, number as usize)),
    }
}

/// The nodes of operands, in order.
#[tactic(auto, using(crate::proofs::FormSteps::operands_step))]
fn operand_nodes(
    alloc: Global,
    store: &mut Store,
    params: &[Param],
    values: &[u32],
    operands: &[Operand],
) -> Result<Vec<u32>, AllocError>
    requires { length store.now + length operands.now < 2 ^ 32 }
    ensures table { OnOk result (store.new
        ≡ (sources.operands_made params.entry.now values.entry.now store.old operands.entry.now).table) }
    ensures numbers { IfOk result (λ numbers. numbers.items
        ≡ (sources.operands_made params.entry.now values.entry.now store.old operands.entry.now).numbers) }
    ensures few { length store.new ≤ length store.old + length operands.now }
{
    let mut numbers = Vec::new(alloc);
    for operand in operands {
        let number = operand_node(store, params, values, *operand)?;
        numbers.push(number)?;
    }
    Ok(numbers)
}

/// Makes the nodes of an operation's results, and puts their numbers behind those of the values so far.
#[tactic(auto, unfolding(crate::specs::Sources::op_made))]
pub fn push_op(
    alloc: Global,
    store: &mut Store,
    params: &[Param],
    values: &mut Vec<u32>,
    op: &Op,
) -> Result<(), AllocError>
    requires room { length store.now < 2 ^ 31 }
    requires params { AllByRecursion IsParam params.now }
    requires next { IsNextOp params.now store.now values.now.items op.now }
    ensures table { OnOk result (store.new
        ≡ (sources.op_made params.entry.now values.old.items store.old op.entry.now).table) }
    ensures numbers { OnOk result (values.new.items ≡ values.old.items
        ++ (sources.op_made params.entry.now values.old.items store.old op.entry.now).numbers) }
{
    let nodes = operand_nodes(alloc, store, params, values.as_slice(), op.args.items())?;
    let a = number_at(nodes.as_slice(), 0);
    let b = number_at(nodes.as_slice(), 1);
    let c = number_at(nodes.as_slice(), 2);
    push_results(alloc, store, values, op.kind, a, b, c)
}
