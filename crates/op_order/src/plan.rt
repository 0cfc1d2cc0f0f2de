ghost use Rattle.std.specs.Prelude.{◌≡◌, ◌<◌, ◌≤◌, [], length, slice_set, Decides, IfOk};
ghost use Rattle.op_order.specs.Legal.{IsLegal};
ghost use Rattle.op_order.specs.Plans.{opening_of, opening_slot, with_slot_moved};

use crate::slot::Slot;
use std::alloc::{AllocError, Global};
use std::marker::Model;
use word_program::Program;

/// An order of a program's operations, with a choice for each, and room for a number of them. Contracts see the
/// slots and the room. No call but those that make a plan takes memory.
#[derive(Drop)]
pub struct Plan {
    slots: Vec<Slot>,
    room: u16,
}

impl Model for Plan {
    ghost use Rattle.std.specs.Prelude.{◌≤◌, length, vec_capacity};
    ghost use Rattle.op_order.specs.Plans.{SlotsWithRoom};

    ghost Value = { SlotsWithRoom };

    ghost view = { λ p. record { slots = p.slots.items; room = p.room } };

    ghost invariant = { λ p. (length p.slots.items ≤ p.room) × (p.room ≤ 65535) × (p.room ≤ vec_capacity p.slots) };
}

/// The slot of an operation with its first template and both marks off.
fn opening_slot(op: u16) -> Slot
    ensures { result ≡ opening_slot op }
{
    Slot {
        op,
        template: 0,
        swap: false,
        load_first: false,
    }
}

impl Plan {
    /// The plan in the order of the program: each operation with its first template and both marks off. It has
    /// room for these slots. The one error is want of memory.
    #[tactic(auto, unfolding(crate::specs::Plans::opening_of))]
    pub fn opening(alloc: Global, program: &Program) -> Result<Plan, AllocError>
        ensures slots { IfOk result (λ plan. plan.slots ≡ opening_of program.now) }
        ensures room { IfOk result (λ plan. plan.room ≡ length program.now.ops) }
        ensures legal { IfOk result (λ plan. IsLegal program.now plan.slots) }
    {
        let room = program.ops().len() as u16;
        let mut slots = Vec::with_capacity(alloc, room as usize)?;
        for op in 0..room {
            slots.push(opening_slot(op))?;
        }
        Ok(Plan { slots, room })
    }

    /// The plan of no slot, with room for this many. The one error is want of memory.
    pub fn with_room(alloc: Global, slots: u16) -> Result<Plan, AllocError>
        ensures { IfOk result (λ plan. plan ≡ record { slots = []; room = slots }) }
    {
        Ok(Plan {
            slots: Vec::with_capacity(alloc, slots as usize)?,
            room: slots,
        })
    }

    /// Makes the slots of `into` those of this plan. The room of `into` stays.
    pub fn copy_into(&self, into: &mut Plan)
        requires { length self.now.slots ≤ into.old.room }
        ensures { into.new ≡ record { slots = self.now.slots; room = into.old.room } }
    {
        into.slots.clear();
        into.slots.extend_from_slice(&self.slots).unwrap();
    }

    /// Whether the two plans have the same slots, whatever their room.
    #[tactic(auto, using(crate::proofs::SameSlots::slots_decide))]
    pub fn same(&self, other: &Plan) -> bool
        ensures { Decides result (self.now.slots ≡ other.now.slots) }
    {
        self.slots.as_slice() == other.slots.as_slice()
    }

    /// The slots in order.
    pub fn slots(&self) -> &[Slot]
        ensures slots { result.now ≡ self.now.slots }
        ensures within_room { length self.now.slots ≤ self.now.room }
        ensures few { length self.now.slots ≤ 65535 }
    {
        self.slots.as_slice()
    }

    /// For how many slots there is room.
    pub fn room(&self) -> u16
        ensures { result ≡ self.now.room }
    {
        self.room
    }

    /// Takes the slot at `from` out, and puts it back so that it stands at `to`. The slots between the two places
    /// move by one.
    #[tactic(auto, unfolding(crate::specs::Plans::with_slot_moved))]
    pub fn move_slot(&mut self, from: u16, to: u16)
        requires from { from < length self.old.slots }
        requires to { to < length self.old.slots }
        ensures { self.new ≡ record { slots = with_slot_moved self.old.slots from to; room = self.old.room } }
    {
        let slot = self.slots.remove(from as usize);
        self.slots.insert(to as usize, slot).unwrap();
    }

    /// Puts a slot in the place of the one at `at`.
    pub fn set_slot(&mut self, at: u16, slot: Slot)
        requires { at < length self.old.slots }
        ensures { self.new ≡ record { slots = slice_set self.old.slots at slot; room = self.old.room } }
    {
        self.slots[at as usize] = slot;
    }
}
