ghost use Rattle.std.specs.Prelude.{◌≡◌, ◌<◌, ◌≤◌, [], ℕ, length, replicate, slice_get, IfOk, OnOk};
ghost use Rattle.std.specs.List.{All, AllByRecursion};
ghost use Rattle.std.specs.List.Sorted.{IsNonDecreasing};
ghost use Rattle.word_program.specs.Values.{targets_of};
ghost use Rattle.dependency_graph.specs.Transposed.{ends_with, put_last};
ghost use Rattle.op_order.specs.Legal.{IsLegal};
ghost use Rattle.op_order.specs.Windows.{IsDefinedAmong};
ghost use Rattle.register_spill.specs.Entering.{AreOpsWithin, entered, entered_all, entered_one};
ghost use Rattle.register_spill.specs.Uses as spec;

use base::Items;
use op_order::{Plan, Slot};
use std::alloc::{AllocError, Global};
use word_program::{Op, Operand, Program};

/// Numbers of slots of a plan.
pub type Slots = Items<u16>;

/// What stands for the next use of a value that has none: a number past every slot.
pub const NEVER: u32 = 65536;

fn ends_with(list: &[u16], at: u16) -> bool
    ensures { result ≡ ends_with at list.now }
{
    match list.last() {
        Some(last) => *last == at,
        None => false,
    }
}

/// Puts a slot at the end of a list, unless it stands there already.
#[tactic(auto, unfolding(dependency_graph::specs::Transposed::put_last))]
fn put_last(list: &mut Slots, at: u16) -> Result<(), AllocError>
    ensures { OnOk result (list.new ≡ put_last at list.old) }
{
    if ends_with(list.items(), at) {
        return Ok(());
    }
    list.push(at)?;
    Ok(())
}

/// Puts a slot at the end of the list of an operand, where that is a value.
fn enter_one(uses: &mut Vec<Slots>, at: u16, operand: Operand) -> Result<(), AllocError>
    requires { IsDefinedAmong (length uses.old.items) operand }
    ensures { OnOk result (uses.new.items ≡ entered_one at uses.old.items operand) }
{
    let Operand::Value(value) = operand else {
        return Ok(());
    };
    put_last(&mut uses[value as usize], at)
}

/// Puts a slot at the end of the lists of these operands, once in each.
fn enter(uses: &mut Vec<Slots>, at: u16, operands: &[Operand]) -> Result<(), AllocError>
    requires { AllByRecursion (IsDefinedAmong (length uses.old.items)) operands.now }
    ensures { OnOk result (uses.new.items ≡ entered at uses.old.items operands.entry.now) }
{
    for operand in operands {
        enter_one(uses, at, *operand)?;
    }
    Ok(())
}

/// As many empty lists.
fn empty_lists(alloc: Global, count: u32) -> Result<Vec<Slots>, AllocError>
    ensures { IfOk result (λ lists. lists.items ≡ replicate count []) }
{
    let mut lists = Vec::new(alloc);
    for _ in 0..count {
        lists.push(Slots::new(alloc))?;
    }
    Ok(lists)
}

/// Puts the number of each slot into the lists of the values that its operation reads.
fn enter_all(uses: &mut Vec<Slots>, ops: &[Op], slots: &[Slot]) -> Result<(), AllocError>
    requires ops { AreOpsWithin (length uses.old.items) ops.now }
    requires slots { All (λ slot. slot.op < length ops.now) slots.now }
    requires few { length slots.now ≤ 65535 }
    ensures { OnOk result (uses.new.items ≡ entered_all ops.entry.now 0 uses.old.items slots.entry.now) }
{
    let mut at = 0;
    for slot in slots {
        enter(uses, at, ops[slot.op as usize].args.items())?;
        at += 1;
    }
    Ok(())
}

/// Of each value the slots that read it.
pub fn uses_of(alloc: Global, program: &Program, plan: &Plan) -> Result<Vec<Slots>, AllocError>
    requires { IsLegal program.now plan.now.slots }
    ensures uses { IfOk result (λ uses. uses.items ≡ spec.all_uses program.entry.now plan.entry.now.slots) }
{
    let mut uses = empty_lists(alloc, program.values())?;
    enter_all(&mut uses, program.ops(), plan.slots())?;
    Ok(uses)
}

fn slot_at(uses: &[u16], place: usize) -> Option<u16>
    ensures { result ≡ slice_get uses.now place }
{
    uses.get(place).copied()
}

/// The first of these slots that is not before `now`.
fn next_use(uses: &[u16], now: u16) -> Option<u16>
    requires { IsNonDecreasing uses.now }
    ensures { result ≡ spec.next_use uses.now now }
{
    let place = uses.partition_point(|at| *at < now);
    slot_at(uses, place)
}

/// The first of these slots that is not before `now`, or [`NEVER`] where there is none.
pub fn distance(uses: &[u16], now: u16) -> u32
    requires { IsNonDecreasing uses.now }
    ensures { result ≡ spec.distance uses.now now }
{
    match next_use(uses, now) {
        Some(at) => at as u32,
        None => NEVER,
    }
}
