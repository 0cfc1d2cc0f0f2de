ghost use Rattle.std.specs.Prelude.{◌≡◌, ◌≤◌, ◌++◌, length, map, option_to_list, replicate, IfOk, OnOk};
ghost use Rattle.std.specs.List.{flat_map};
ghost use Rattle.dependency_graph.specs.Transposed as spec;

use crate::transpose::Numbers;
use base::MAX_OPERATIONS;
use std::alloc::{AllocError, Global};
use word_program::{Op, Operand};

/// Puts a number at the end of a list, as often as this.
fn push_times(list: &mut Vec<u16>, number: u16, times: usize) -> Result<(), AllocError>
    ensures { OnOk result (list.new.items ≡ list.old.items ++ replicate times number) }
{
    for _ in 0..times {
        list.push(number)?;
    }
    Ok(())
}

/// The operation that defines each value, by its value number.
pub fn definers_of(alloc: Global, ops: &[Op]) -> Result<Vec<u16>, AllocError>
    requires { length ops.now ≤ MAX_OPERATIONS }
    ensures { IfOk result (λ definers. definers.items ≡ spec.definers_of ops.entry.now) }
{
    let mut definers = Vec::new(alloc);
    let mut number = 0;
    for op in ops {
        push_times(&mut definers, number, op.targets.items().len())?;
        number += 1;
    }
    Ok(definers)
}

/// The operation that defines an operand, where it is a value.
fn definer_of(definers: &[u16], operand: Operand) -> Option<u16>
    ensures { option_to_list result ≡ spec.definer_of definers.now operand }
{
    match operand {
        Operand::Value(number) => match definers.get(number as usize) {
            Some(maker) => Some(*maker),
            None => None,
        },
        _ => None,
    }
}

/// The operations that define the operands of an operation, in the order of the operands.
fn reads_of_one(
    alloc: Global,
    definers: &[u16],
    operands: &[Operand],
) -> Result<Numbers, AllocError>
    ensures { IfOk result (λ reads. reads ≡ flat_map (spec.definer_of definers.entry.now) operands.entry.now) }
{
    let mut reads = Numbers::new(alloc);
    for operand in operands {
        if let Some(maker) = definer_of(definers, *operand) {
            reads.push(maker)?;
        }
    }
    Ok(reads)
}

/// Of each operation, those that define its operands.
pub fn reads_of(alloc: Global, definers: &[u16], ops: &[Op]) -> Result<Vec<Numbers>, AllocError>
    ensures { IfOk result (λ reads. reads.items ≡ map (spec.reads_of definers.entry.now) ops.entry.now) }
{
    let mut reads = Vec::new(alloc);
    for op in ops {
        reads.push(reads_of_one(alloc, definers, op.args.items())?)?;
    }
    Ok(reads)
}
