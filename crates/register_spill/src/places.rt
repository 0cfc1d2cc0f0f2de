ghost use Rattle.std.specs.Prelude.{◌≡◌, ◌<◌, Some, None, true, false, length, replicate, IfOk};
ghost use Rattle.word_program.specs.Values.{targets_of};
ghost use Rattle.op_order.specs.Legal.{IsLegal};
ghost use Rattle.register_spill.specs.declared.spot.Spot.TheVariants.{Frame, Nowhere, Register};
ghost use Rattle.register_spill.specs.Spots.{ArePlaced, is_free, is_in_register, spot_at};
ghost use Rattle.register_spill.specs.Uses.{all_uses};
ghost use Rattle.register_spill.specs.Calls as spec;

use crate::choice::{Holders, farthest, first_free};
use crate::registers::RegSet;
use crate::spot::{Spot, Taken};
use crate::uses::{Slots, uses_of};
use op_order::Plan;
use std::alloc::{AllocError, Global};
use std::marker::Model;
use word_program::Program;
use x86_instr::Reg;

/// Where each value of a program is. Contracts see the spots by value number, and of each value the slots of the plan
/// that read it.
#[derive(Drop)]
pub struct Places {
    spots: Vec<Spot>,
    holders: Holders,
    uses: Vec<Slots>,
}

impl Model for Places {
    ghost use Rattle.register_spill.specs.Spots.{Placed};
    ghost use Rattle.register_spill.specs.Inside.{IsInside};

    ghost Value = { Placed };

    ghost view = { λ p. record { spots = p.spots.items; uses = p.uses.items } };

    ghost invariant = { λ p. IsInside p.spots.items p.holders p.uses.items };
}

/// As many values that are nowhere.
fn nowhere(alloc: Global, count: u32) -> Result<Vec<Spot>, AllocError>
    ensures { IfOk result (λ spots. spots.items ≡ replicate count Nowhere) }
{
    let mut spots = Vec::new(alloc);
    for _ in 0..count {
        spots.push(Spot::Nowhere)?;
    }
    Ok(spots)
}

impl Places {
    /// Each value of the program is nowhere. The one error is want of memory. It takes time that grows with the number
    /// of operands.
    pub fn new(alloc: Global, program: &Program, plan: &Plan) -> Result<Places, AllocError>
        requires { IsLegal program.now plan.now.slots }
        ensures spots { IfOk result (λ places.
            places.spots ≡ replicate (length (targets_of program.entry.now.ops)) Nowhere) }
        ensures uses { IfOk result (λ places. places.uses ≡ all_uses program.entry.now plan.entry.now.slots) }
    {
        let spots = nowhere(alloc, program.values())?;
        let uses = uses_of(alloc, program, plan)?;
        Ok(Places {
            spots,
            holders: [None; 16],
            uses,
        })
    }

    /// How many values there are.
    pub fn count(&self) -> usize
        ensures { result ≡ length self.now.spots }
    {
        self.spots.len()
    }

    /// Where the value with this number is. No register has two values, none has the stack pointer, and a value in the
    /// frame is in the slot with its own number.
    pub fn at(&self, value: u16) -> Spot
        requires { value < length self.now.spots }
        ensures spot { result ≡ spot_at self.now.spots value }
        ensures alone { ArePlaced self.now.spots }
    {
        self.spots[value as usize]
    }

    /// Puts the value, which is in no register, into one that is neither `rsp` nor pinned: the free one with the lowest
    /// number, else the one of the value whose next use at or after the slot `now` of the plan is farthest, which goes
    /// to its slot of the frame. A value without a next use is farther than any other, and of two that are as far, it
    /// is the one with the greater number. Every other value stays where it is.
    pub fn take(&mut self, value: u16, now: u16, pinned: RegSet) -> Taken
        requires value { value < length self.old.spots }
        requires outside { is_in_register (spot_at self.old.spots value) ≡ false }
        requires some_open { spec.some_open pinned.bits ≡ true }
        ensures taken { spec.IsTaken self.old self.new value now pinned.bits result }
        ensures open { spec.is_open pinned.bits result.reg ≡ true }
        ensures count { length self.new.spots ≡ length self.old.spots }
    {
        if let Some(reg) = first_free(&self.holders, pinned) {
            self.enter(value, reg);
            return Taken { reg, evicted: None };
        }
        self.replace(value, now, pinned)
    }

    /// The value is nowhere. Every other value stays where it is.
    pub fn release(&mut self, value: u16)
        requires { value < length self.old.spots }
        ensures released { self.new ≡ spec.released self.old value }
        ensures count { length self.new.spots ≡ length self.old.spots }
    {
        if let Spot::Register(reg) = self.spots[value as usize] {
            return self.leave(value, reg, Spot::Nowhere);
        }
        self.spots[value as usize] = Spot::Nowhere;
    }

    /// Puts the value into the register of the one whose next use is farthest, where no register is free.
    fn replace(&mut self, value: u16, now: u16, pinned: RegSet) -> Taken
        requires value { value < length self.old.spots }
        requires outside { is_in_register (spot_at self.old.spots value) ≡ false }
        requires some_open { spec.some_open pinned.bits ≡ true }
        requires none_free { spec.first_free self.old.spots pinned.bits ≡ None }
        ensures evicts { spec.Evicts self.old self.new value now pinned.bits result }
    {
        let found = farthest(&self.holders, self.uses.as_slice(), now, pinned).unwrap();
        self.leave(found.value, found.reg, Spot::Frame(found.value.into()));
        self.enter(value, found.reg);
        Taken {
            reg: found.reg,
            evicted: Some((found.value, found.value.into())),
        }
    }

    /// The value, which is in no register, is in this free one.
    fn enter(&mut self, value: u16, reg: Reg)
        requires value { value < length self.old.spots }
        requires outside { is_in_register (spot_at self.old.spots value) ≡ false }
        requires free { is_free self.old.spots reg ≡ true }
        requires not_stack { spec.is_stack reg ≡ false }
        ensures { self.new ≡ spec.with_spot self.old value (Register reg) }
    {
        self.holders[reg.number() as usize] = Some(value);
        self.spots[value as usize] = Spot::Register(reg);
    }

    /// The value leaves its register for this spot, which is its slot of the frame or none.
    fn leave(&mut self, value: u16, reg: Reg, spot: Spot)
        requires there { spot_at self.old.spots value ≡ Register reg }
        requires spot { spec.is_outside value spot ≡ true }
        ensures { self.new ≡ spec.with_spot self.old value spot }
    {
        self.holders[reg.number() as usize] = None;
        self.spots[value as usize] = spot;
    }
}
