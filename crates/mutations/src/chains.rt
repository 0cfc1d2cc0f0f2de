//! Sets a template for a whole chain of carries. The operations of the chain are marked in one walk over the program,
//! and the slots are set in one walk over the plan.
ghost use Rattle.std.specs.Prelude.{◌≡◌, ◌<◌, [], length, map};
ghost use Rattle.std.specs.List.{All};
ghost use Rattle.base.specs.declared.limits.TheConstants.{MAX_OPERATIONS};
ghost use Rattle.mutations.specs.Chains as spec;
ghost use Rattle.mutations.specs.Marks.{AreMarks, templated_by};
ghost use Rattle.mutations.specs.Mutations.{chained};

use base::MAX_OPERATIONS;
use dependency_graph::first_value;
use op_order::{Plan, Slot};
use word_program::{Kind, Op, Operand, Program};

/// By the number of each operation, whether it is in a chain.
type Marks = [bool; MAX_OPERATIONS];

fn is_add_carry(kind: Kind) -> bool
    ensures { result ≡ spec.is_add_carry kind }
{
    match kind {
        Kind::AddCarry => true,
        _ => false,
    }
}

fn is_value(operand: Operand, number: u32) -> bool
    ensures { result ≡ spec.is_value number operand }
{
    match operand {
        Operand::Value(other) => other as u32 == number,
        _ => false,
    }
}

/// Whether the operation is an `addcarryx` of which the carry operand is the value with this number.
fn takes_carry(op: &Op, carry: u32) -> bool
    ensures { result ≡ spec.takes_carry carry op.now }
{
    if !is_add_carry(op.kind) {
        return false;
    }
    match op.args.items().first() {
        Some(operand) => is_value(*operand, carry),
        None => false,
    }
}

fn no_marks() -> Marks
    ensures { AreMarks result [] }
{
    [false; MAX_OPERATIONS]
}

/// Marks the operations in the chain of an operation.
fn chain_marks(program: &Program, first: u16) -> Marks
    requires { first < length program.now.ops }
    ensures { AreMarks result (spec.chain_of program.now first) }
{
    let ops = program.ops();
    let mut marks = no_marks();
    marks[first as usize] = true;
    let mut carry = first_value(program, first) + 1;
    let mut value = first_value(program, first + 1);
    for op in first + 1..ops.len() as u16 {
        if takes_carry(&ops[op as usize], carry) {
            marks[op as usize] = true;
            carry = value + 1;
        }
        value += ops[op as usize].targets.items().len() as u32;
    }
    marks
}

fn templated(marks: &Marks, number: u8, slot: Slot) -> Slot
    requires { slot.op < MAX_OPERATIONS }
    ensures { result ≡ templated_by marks.now number slot }
{
    if marks[slot.op as usize] {
        return Slot {
            template: number,
            ..slot
        };
    }
    slot
}

/// Sets a template for each operation that is marked.
fn set_marked(plan: &mut Plan, marks: &Marks, number: u8)
    requires { All (λ slot. slot.op < MAX_OPERATIONS) plan.old.slots }
    ensures { plan.new ≡ record { slots = map (templated_by marks.now number) plan.old.slots; room = plan.old.room } }
{
    for at in 0..plan.slots().len() as u16 {
        let slot = plan.slots()[at as usize];
        plan.set_slot(at, templated(marks, number, slot));
    }
}

/// Sets a template for each operation in the chain of a slot's operation, where that is an `addcarryx`.
pub fn set_chain(program: &Program, plan: &mut Plan, slot: u16, number: u8)
    requires slot { slot < length plan.old.slots }
    requires ops { All (λ slot. slot.op < length program.now.ops) plan.old.slots }
    ensures { plan.new ≡ record { slots = chained program.now number plan.old.slots slot; room = plan.old.room } }
{
    let op = plan.slots()[slot as usize].op;
    if is_add_carry(program.ops()[op as usize].kind) {
        let marks = chain_marks(program, op);
        set_marked(plan, &marks, number);
    }
}
