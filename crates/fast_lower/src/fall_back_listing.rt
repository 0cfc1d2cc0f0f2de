ghost use Rattle.std.specs.Prelude.{◌≡◌, ◌<◌, ◌++◌, length, IfOk, OnOk};
ghost use Rattle.std.specs.List.{All};
ghost use Rattle.word_program.specs.Accepted.{IsAccepted};
ghost use Rattle.templates.specs.Table.{count_of};
ghost use Rattle.op_order.specs.Legal.{IsLegal};
ghost use Rattle.plain_lower.specs.Blocks as plain;
ghost use Rattle.fast_lower.specs.FallBack as spec;
ghost use Rattle.fast_lower.specs.Fast.{IsFast};

use crate::blocks::push_block;
use op_order::{Plan, Slot};
use plain_lower::{first_values, push_entry, push_exit, push_late_stores};
use std::alloc::{AllocError, Global};
use word_program::Program;
use x86_instr::{Lines, Listing, Text};

/// The fall-back: the plain listing, but for the marks of the slots. The one error is want of memory.
pub fn fall_back(alloc: Global, program: &Program, plan: &Plan) -> Result<Listing, AllocError>
    requires { IsLegal program.now plan.now.slots }
    ensures listing { IfOk result (λ l. l ≡ spec.fall_back_listing program.entry.now plan.entry.now.slots) }
    ensures fast { IfOk result (λ l. IsFast program.entry.now plan.entry.now.slots l) }
{
    let lines = fall_back_lines(alloc, program, plan.slots())?;
    let name = Text::from_str(alloc, program.name().as_str())?;
    match Listing::new(alloc, name, lines) {
        Ok(listing) => Ok(listing),
        Err(_) => unreachable!(),
    }
}

/// The lines of the listing.
#[tactic(auto, unfolding(crate::specs::FallBack::fall_back_lines))]
fn fall_back_lines(alloc: Global, program: &Program, slots: &[Slot]) -> Result<Lines, AllocError>
    requires ops { All (λ slot. slot.op < length program.now.ops) slots.now }
    requires templates { All (λ slot. slot.template < count_of program.now slot.op) slots.now }
    ensures lines { IfOk result (λ lines. lines ≡ spec.fall_back_lines program.now slots.now) }
    ensures accepted { IsAccepted program.now }
{
    let mut lines = Lines::new(alloc);
    push_entry(&mut lines, program)?;
    let firsts = first_values(alloc, program)?;
    push_blocks(alloc, &mut lines, program, firsts.as_slice(), slots)?;
    push_late_stores(&mut lines, program)?;
    push_exit(&mut lines, program)?;
    Ok(lines)
}

/// The blocks of slots.
fn push_blocks(
    alloc: Global,
    lines: &mut Lines,
    program: &Program,
    firsts: &[u32],
    slots: &[Slot],
) -> Result<(), AllocError>
    requires firsts { firsts.now ≡ plain.firsts_of program.now }
    requires ops { All (λ slot. slot.op < length program.now.ops) slots.now }
    requires templates { All (λ slot. slot.template < count_of program.now slot.op) slots.now }
    ensures { OnOk result (lines.new ≡ lines.old ++ spec.blocks program.now slots.now) }
{
    for slot in slots {
        push_block(alloc, lines, program, firsts, *slot)?;
    }
    Ok(())
}
