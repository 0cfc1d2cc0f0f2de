ghost use Rattle.std.specs.Prelude.{◌≡◌, ◌<◌, length};
ghost use Rattle.std.specs.List.{All};
ghost use Rattle.op_order.specs.Legal.{IsLegal};
ghost use Rattle.op_order.specs.Plans.{op_at};
ghost use Rattle.mutations.specs.Mutations as spec;

use crate::chains::set_chain;
use crate::mutation::Mutation;
use op_order::{Plan, Slot};
use word_program::{Kind, Program};

/// Whether two operands of an operation of this kind may change places.
fn commutes(kind: Kind) -> bool
    ensures { result ≡ spec.commutes kind }
{
    match kind {
        Kind::AddCarry | Kind::MulX | Kind::Mul | Kind::Add => true,
        Kind::And | Kind::Or | Kind::Xor => true,
        Kind::SubBorrow | Kind::Sub | Kind::Not | Kind::Copy => false,
        Kind::Shl(_) | Kind::Shr(_) | Kind::Shrd(_) | Kind::CMov => false,
    }
}

fn set_template(plan: &mut Plan, slot: u16, number: u8)
    requires { slot < length plan.old.slots }
    ensures { plan.new ≡ record {
      slots = spec.changed (spec.with_template number) plan.old.slots slot;
      room = plan.old.room;
    } }
{
    let before = plan.slots()[slot as usize];
    plan.set_slot(
        slot,
        Slot {
            template: number,
            ..before
        },
    );
}

fn toggle_swap_at(program: &Program, plan: &mut Plan, slot: u16)
    requires slot { slot < length plan.old.slots }
    requires op { op_at plan.old.slots slot < length program.now.ops }
    ensures { plan.new ≡ record { slots = spec.swapped program.now plan.old.slots slot; room = plan.old.room } }
{
    let before = plan.slots()[slot as usize];
    if commutes(program.ops()[before.op as usize].kind) {
        plan.set_slot(
            slot,
            Slot {
                swap: !before.swap,
                ..before
            },
        );
    }
}

fn toggle_load_at(plan: &mut Plan, slot: u16)
    requires { slot < length plan.old.slots }
    ensures { plan.new ≡ record { slots = spec.changed spec.toggle_load plan.old.slots slot; room = plan.old.room } }
{
    let before = plan.slots()[slot as usize];
    plan.set_slot(
        slot,
        Slot {
            load_first: !before.load_first,
            ..before
        },
    );
}

/// Carries out a mutation of a legal plan. Its numbers are in range, and a slot moves within its window, as those of
/// a drawn mutation do, and the template of a chain is 1 or 2. It takes no memory, and time that grows with the number
/// of slots.
#[tactic(auto, unfolding(crate::specs::Mutations::applied, crate::specs::Mutations::Fits))]
pub fn apply(program: &Program, mutation: Mutation, plan: &mut Plan)
    requires legal { IsLegal program.now plan.old.slots }
    requires fits { spec.Fits program.now plan.old.slots mutation }
    ensures slots { plan.new.slots ≡ spec.applied program.now mutation plan.old.slots }
    ensures legal { IsLegal program.now plan.new.slots }
    ensures room { plan.new.room ≡ plan.old.room }
{
    match mutation {
        Mutation::Move { slot, to } => plan.move_slot(slot, to),
        Mutation::Template { slot, number } => set_template(plan, slot, number),
        Mutation::Swap { slot } => toggle_swap_at(program, plan, slot),
        Mutation::Load { slot } => toggle_load_at(plan, slot),
        Mutation::Chain { slot, number } => set_chain(program, plan, slot, number),
    }
}
