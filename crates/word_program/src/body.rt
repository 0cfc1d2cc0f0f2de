ghost use Rattle.std.specs.Prelude.{◌≡◌, ◌++◌, ◌+◌, ◌≤◌, ◌<◌, [], ◌∷◌, ℕ, length, map, fold, slice_get, IfOk, IfSome};
ghost use Rattle.std.specs.Prelude.{◌^◌, IsTrue, OnOk};
ghost use Rattle.std.specs.List.{AllByRecursion};
ghost use Rattle.base.specs.declared.limits.TheConstants.{MAX_OPERATIONS, MAX_PARAMS};
ghost use Rattle.word_program.specs.Accepted.{IsParam};
ghost use Rattle.word_program.specs.Rules as spec;
ghost use Rattle.word_operations.specs.Operations as table;
ghost use Rattle.word_program.specs.Walk.{Meets, walk, at, place_in};

use crate::operation::{Op, Operand, TargetList};
use crate::parameter::Param;
use crate::params::{memory, rule};
use crate::scope::BodyScope;
use std::alloc::Global;
use word_operations::{Kind, argument_count, kind_named, with_shift};
use word_text::{Items, ProgramFault, RawOp, Section, Text, codes};

/// The kind of an operation, which has as many arguments and results as the kind has.
#[tactic(auto, unfolding(crate::specs::Rules::shape_rules))]
fn kind_of(item: u32, raw: &RawOp) -> Result<Kind, ProgramFault>
    ensures fault { Meets result (at (place_in Section.Body item 0) (spec.shape_rules raw.now)) }
    ensures value { IfOk result (λ kind. kind ≡ spec.kind_or (table.kind_named raw.now.operation)) }
    ensures arguments { IfOk result (λ kind. length raw.now.arguments ≡ table.argument_count kind) }
    ensures few { IfOk result (λ kind. length raw.now.arguments ≤ 3) }
    ensures results { IfOk result (λ kind. length raw.now.results ≤ 2) }
{
    let Some(kind) = kind_named(raw.operation.as_str()) else {
        return Err(rule(codes::OPERATION, Section::Body, item, 0));
    };
    if raw.arguments.items().len() != argument_count(kind) {
        return Err(rule(codes::ARITY, Section::Body, item, 0));
    }
    if raw.results.items().len() != kind.result_count() {
        return Err(rule(codes::ARITY, Section::Body, item, 0));
    }
    Ok(kind)
}

/// The operands that the arguments of an operation are, a shift count among them.
fn arguments(
    alloc: Global,
    scope: &BodyScope<'_>,
    item: u32,
    kind: Kind,
    texts: &[Text],
) -> Result<Vec<Operand>, ProgramFault>
    requires { length texts.now ≤ 3 }
    ensures fault { Meets result (walk (spec.argument_fault scope.entry.now item kind)
        (λ u text. u) tt 0 texts.entry.now) }
    ensures value { IfOk result (λ operands. operands.items ≡ map
        (λ text. spec.operand_or (spec.operand_of scope.entry.now text)) texts.entry.now) }
{
    let mut operands = Vec::new(alloc);
    let mut place = 0;
    for text in texts {
        match scope.argument(kind, place as usize, text.as_str()) {
            Ok(operand) => operands.push(operand).map_err(|_| ProgramFault::Memory)?,
            Err(code) => return Err(rule(code, Section::Body, item, 1 + place)),
        }
        place += 1;
    }
    Ok(operands)
}

/// Puts the results of an operation behind those that are there, and answers where they go.
fn results<'a>(
    alloc: Global,
    scope: &mut BodyScope<'a>,
    item: u32,
    before: u32,
    texts: &'a [Text],
) -> Result<TargetList, ProgramFault>
    requires few { length texts.now ≤ 2 }
    requires arguments { before ≤ 3 }
    requires room { length scope.old.names + 2 ≤ 2 ^ 16 }
    ensures fault { Meets result (walk (spec.result_fault item before) spec.with_result scope.old 0 texts.entry.now) }
    ensures state { OnOk result (scope.new ≡ fold spec.with_result scope.old texts.entry.now) }
    ensures value { IfOk result (λ targets. targets ≡ map (spec.target_of scope.old.params) texts.entry.now) }
    ensures more { OnOk result (length scope.new.names ≡ length scope.old.names + length texts.entry.now) }
{
    let mut targets = Items::new(alloc);
    let mut place = 0;
    for text in texts {
        match scope.result(text.as_str()) {
            Ok(target) => {
                targets.push(target).map_err(memory)?;
                scope.add(text.as_str(), target).map_err(memory)?;
            }
            Err(code) => return Err(rule(code, Section::Body, item, 1 + before + place)),
        }
        place += 1;
    }
    Ok(targets)
}

/// The shift count that an operand is.
fn shift_or(operand: Option<Operand>) -> u8
    requires { IfSome operand (λ o. IsTrue (spec.is_shift o)) }
    ensures { result ≡ spec.shift_or operand }
{
    match operand {
        Some(Operand::Literal(number)) => number as u8,
        Some(Operand::Input { .. } | Operand::Value(_)) | None => 0,
    }
}

/// The operation on these operands, of which the one after the last is a shift count.
fn op_on(kind: Kind, operands: Vec<Operand>, targets: TargetList) -> Op
    requires { IfSome (slice_get operands.items (table.operand_count kind)) (λ o. IsTrue (spec.is_shift o)) }
    ensures { result ≡ spec.op_on kind operands.items targets }
{
    let mut operands = operands;
    let operand_count = kind.operand_count();
    let count = shift_or(operands.as_slice().get(operand_count).copied());
    operands.truncate(operand_count);
    Op {
        kind: with_shift(kind, count),
        args: Items::from_vec(operands),
        targets,
    }
}

/// Puts an operation behind those that are there.
#[tactic(auto, unfolding(crate::specs::Rules::operation_fault, crate::specs::Rules::with_operation, crate::specs::Rules::op_of))]
fn operation<'a>(
    alloc: Global,
    scope: &mut BodyScope<'a>,
    item: u32,
    raw: &'a RawOp,
) -> Result<(), ProgramFault>
    requires { length scope.old.names + 2 ≤ 2 ^ 16 }
    ensures fault { Meets result (spec.operation_fault scope.old item raw.entry.now) }
    ensures state { OnOk result (scope.new ≡ spec.with_operation scope.old raw.entry.now) }
    ensures more { OnOk result (length scope.new.names ≤ length scope.old.names + 2) }
{
    let kind = kind_of(item, raw)?;
    let operands = arguments(alloc, scope, item, kind, raw.arguments.items())?;
    let before = raw.arguments.items().len() as u32;
    let targets = results(alloc, scope, item, before, raw.results.items())?;
    let op = op_on(kind, operands, targets);
    match scope.finish(op) {
        Ok(()) => Ok(()),
        Err(_) => Err(ProgramFault::Memory),
    }
}

/// Reads the operations of a program with these parameters.
pub fn read_body<'a>(
    alloc: Global,
    params: &'a [Param],
    body: &'a [RawOp],
) -> Result<BodyScope<'a>, ProgramFault>
    requires few { length params.now ≤ MAX_PARAMS }
    requires params { AllByRecursion IsParam params.now }
    requires short { length body.now ≤ MAX_OPERATIONS }
    ensures fault { Meets result (walk spec.operation_fault spec.with_operation
        (spec.start params.entry.now) 0 body.entry.now) }
    ensures value { IfOk result (λ scope. scope ≡ spec.scope_after params.entry.now body.entry.now) }
{
    let mut scope = BodyScope::new(alloc, params);
    let mut item = 0;
    for raw in body {
        operation(alloc, &mut scope, item, raw)?;
        item += 1;
    }
    Ok(scope)
}
