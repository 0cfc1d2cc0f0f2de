ghost use Rattle.std.specs.Prelude.{◌≡◌, ◌<◌, ◌≤◌, ◌-◌, ◌==◌, length};
ghost use Rattle.std.specs.List.{All, position, position_or_len};
ghost use Rattle.word_program.specs.Values.{targets_of};
ghost use Rattle.dependency_graph.specs.Needs as needs;
ghost use Rattle.op_order.specs.Legal.{IsLegal};
ghost use Rattle.op_order.specs.Windows.{IsDefinedAmong, defines_operand, high_of, low_of, past_last};

use crate::plan::Plan;
use crate::slot::Slot;
use dependency_graph::{definer, first_value, reads_value_in};
use word_program::{Operand, Program};

/// One past the last slot of an operation, or 0 where it has none.
fn past_slots_of(slots: &[Slot], op: u16) -> usize
    ensures { result ≡ past_last (λ slot. slot.op == op) slots.now }
{
    let mut past = 0;
    for (place, slot) in slots.iter().enumerate() {
        if slot.op == op {
            past = place + 1;
        }
    }
    past
}

/// One past the last slot of the operation that gives an operand, or 0 where none does.
fn past_giver(program: &Program, slots: &[Slot], operand: Operand) -> usize
    requires { IsDefinedAmong (length (targets_of program.now.ops)) operand }
    ensures { result ≡ past_last (λ slot. defines_operand program.now slot.op operand) slots.now }
{
    match operand {
        Operand::Value(value) => past_slots_of(slots, definer(program, value)),
        Operand::Literal(_) | Operand::Input { .. } => 0,
    }
}

/// One past the last slot of an operation that this one needs, or 0.
fn low(program: &Program, slots: &[Slot], op: u16) -> usize
    requires { op < length program.now.ops }
    ensures { result ≡ past_last (λ slot. needs.is_needed program.now op slot.op) slots.now }
{
    let mut low = 0;
    for operand in program.ops()[op as usize].args.items() {
        low = low.max(past_giver(program, slots, *operand));
    }
    low
}

/// The first slot of an operation that has a value with a number of at least `first` and below `end` as an operand.
fn first_reader(program: &Program, slots: &[Slot], first: u32, end: u32) -> Option<usize>
    requires { All (λ slot. slot.op < length program.now.ops) slots.now }
    ensures { result ≡ position (λ slot. needs.reads_value_in program.now slot.op first end) slots.now }
{
    slots
        .iter()
        .position(|slot| reads_value_in(program, slot.op, first, end))
}

/// One before the first slot of an operation that needs this one, or the last place.
fn high(program: &Program, slots: &[Slot], op: u16) -> usize
    requires op { op < length program.now.ops }
    requires few { length program.now.ops ≤ 65535 }
    requires ops { All (λ slot. slot.op < length program.now.ops) slots.now }
    ensures { result ≡ position_or_len (λ slot. needs.is_needed program.now slot.op op) slots.now - 1 }
{
    let first = first_value(program, op);
    let end = first_value(program, op + 1);
    match first_reader(program, slots, first, end) {
        Some(place) => place.saturating_sub(1),
        None => slots.len().saturating_sub(1),
    }
}

/// The first and the last place at which the slot at `at` may stand: one past the last operation that its
/// operation needs, or 0, and one before the first that needs its operation, or the last place. It takes no memory,
/// and time that grows with the numbers of slots and operations.
#[tactic(auto, unfolding(crate::specs::Windows::low_of, crate::specs::Windows::high_of))]
pub fn window(program: &Program, plan: &Plan, at: u16) -> (u16, u16)
    requires legal { IsLegal program.now plan.now.slots }
    requires at { at < length plan.now.slots }
    ensures low { result.0 ≡ low_of program.now plan.now.slots at }
    ensures high { result.1 ≡ high_of program.now plan.now.slots at }
    ensures below { result.0 ≤ at }
    ensures above { at ≤ result.1 }
    ensures within { result.1 < length plan.now.slots }
{
    let slots = plan.slots();
    let op = slots[at as usize].op;
    (
        low(program, slots, op) as u16,
        high(program, slots, op) as u16,
    )
}
