ghost use Rattle.std.specs.Prelude.{◌≡◌, ◌++◌, map, slice_index_or, IfOk, OnOk};
ghost use Rattle.std.specs.List.{AllByRecursion};
ghost use Rattle.word_program.specs.Program as programs;
ghost use Rattle.word_program.specs.Values.{word_bounds};
ghost use Rattle.word_program.specs.Accepted.{HasShift};
ghost use Rattle.bounds.specs.Intervals.{between, operand_interval, op_intervals, intervals_of};
ghost use Rattle.intervals.specs.Intervals.{full};
ghost use Rattle.bounds.specs.Soundness.{HoldValues};
ghost use Rattle.intervals.specs.Soundness.{IsOrdered};

use crate::rows;
use intervals::Interval;
use std::alloc::{AllocError, Global};
use word_program::{Bounds, Op, Operand, Param, Program};

/// Between the bounds at a place; every word where there are none.
fn bounds_at(bounds: &[Bounds], word: usize) -> Interval
    ensures { result ≡ between (slice_index_or bounds.now word programs.full) }
{
    match bounds.get(word) {
        Some(bounds) => intervals::between(bounds.low, bounds.high),
        None => intervals::full(),
    }
}

fn word_interval(params: &[Param], param: usize, word: usize) -> Interval
    ensures { result ≡ between (word_bounds params.now param word) }
{
    match params.get(param) {
        Some(param) => bounds_at(param.bounds.items(), word),
        None => intervals::full(),
    }
}

fn operand_interval(params: &[Param], list: &[Interval], operand: &Operand) -> Interval
    ensures { result ≡ operand_interval params.now list.now operand.now }
{
    match *operand {
        Operand::Literal(word) => intervals::between(word, word),
        Operand::Input { param, word } => word_interval(params, param as usize, word as usize),
        Operand::Value(number) => match list.get(number as usize) {
            Some(interval) => *interval,
            None => intervals::full(),
        },
    }
}

/// The interval of the operand at a place.
fn argument(params: &[Param], list: &[Interval], args: &[Operand], place: usize) -> Interval
    ensures { result ≡ slice_index_or (map (operand_interval params.now list.now) args.now) place full }
{
    match args.get(place) {
        Some(operand) => operand_interval(params, list, operand),
        None => intervals::full(),
    }
}

/// Puts the intervals of an operation's results at the end of those of the values before it.
#[tactic(auto, unfolding(crate::specs::Intervals::op_intervals))]
fn push_op(list: &mut Vec<Interval>, params: &[Param], op: &Op) -> Result<(), AllocError>
    requires { HasShift op.now.kind }
    ensures { OnOk result (list.new.items ≡ list.old.items ++ op_intervals params.now list.old.items op.now) }
{
    let args = op.args.items();
    let a = argument(params, list.as_slice(), args, 0);
    let b = argument(params, list.as_slice(), args, 1);
    let c = argument(params, list.as_slice(), args, 2);
    rows::push_results(list, op.kind, a, b, c)
}

/// The interval of each value of a program, by its value number. The one error is want of memory.
pub fn intervals(alloc: Global, program: &Program) -> Result<Vec<Interval>, AllocError>
    ensures exact { IfOk result (λ list. list.items ≡ intervals_of program.now) }
    ensures sound { IfOk result (λ list. HoldValues program.now list.items) }
    ensures ordered { IfOk result (λ list. AllByRecursion IsOrdered list.items) }
{
    let params = program.params();
    let mut list = Vec::new(alloc);
    for op in program.ops() {
        push_op(&mut list, params, op)?;
    }
    Ok(list)
}
