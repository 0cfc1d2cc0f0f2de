ghost use Rattle.std.specs.Prelude.{◌≡◌, ◌≤◌, ◌<◌, true, length};
ghost use Rattle.std.specs.List.{list_any};
ghost use Rattle.word_program.specs.Values.{targets_of};
ghost use Rattle.dependency_graph.specs.Needs as spec;

use word_program::{Op, Operand, Program};

fn result_count(ops: &[Op]) -> u32
    requires { length (targets_of ops.now) ≤ 4096 }
    ensures { result ≡ length (targets_of ops.now) }
{
    let mut count = 0;
    for op in ops {
        count += op.targets.items().len() as u32;
    }
    count
}

/// The value number of an operation's first result, or how many values there are where the number is that of no
/// operation. It takes no memory, and time that grows with the number.
#[tactic(auto, unfolding(crate::specs::Needs::first_value), using(crate::proofs::OrderLemmas::results_limit))]
pub fn first_value(program: &Program, op: u16) -> u32
    requires { op ≤ length program.now.ops }
    ensures first { result ≡ spec.first_value program.now op }
    ensures few { result ≤ length (targets_of program.now.ops) }
{
    let (before, _) = program.ops().split_at(op as usize);
    result_count(before)
}

/// Whether the operand is a value, of which the number is at least `first` and below `end`.
fn is_value_in(first: u32, end: u32, operand: Operand) -> bool
    ensures { result ≡ spec.is_value_in first end operand }
{
    match operand {
        Operand::Value(number) => first <= number as u32 && (number as u32) < end,
        _ => false,
    }
}

fn any_value_in(first: u32, end: u32, operands: &[Operand]) -> bool
    ensures { result ≡ list_any (spec.is_value_in first end) operands.now }
{
    operands
        .iter()
        .any(|operand| is_value_in(first, end, *operand))
}

/// Whether an operation has a value with a number of at least `first` and below `end` as an operand. An operation
/// needs another one exactly where that holds of the first value of the other one and of the one after it.
pub fn reads_value_in(program: &Program, op: u16, first: u32, end: u32) -> bool
    requires { op < length program.now.ops }
    ensures { result ≡ spec.reads_value_in program.now op first end }
{
    any_value_in(first, end, program.ops()[op as usize].args.items())
}

/// The operation that defines a value. It takes no memory, and time that grows with the number.
#[tactic(auto, using(crate::proofs::OrderLemmas::defines_here))]
pub fn definer(program: &Program, value: u16) -> u16
    requires { value < length (targets_of program.now.ops) }
    ensures op { result < length program.now.ops }
    ensures defines { spec.defines program.now result value ≡ true }
{
    let mut end = 0;
    let mut number = 0;
    for op in program.ops() {
        end += op.targets.items().len();
        if (value as usize) < end {
            return number;
        }
        number += 1;
    }
    0
}
