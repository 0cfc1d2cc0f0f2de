ghost use Rattle.std.specs.Prelude.{◌≡◌, ◌≤◌, ◌<◌, ◌++◌, length, pos, IfOk, OnOk};
ghost use Rattle.std.specs.List.{All};
ghost use Rattle.word_program.specs.Accepted.{IsAccepted};
ghost use Rattle.x86_instr.specs.declared.operand.Src.TheVariants as srcs;
ghost use Rattle.op_order.specs.Legal.{IsLegal};
ghost use Rattle.plain_lower.specs.Plain as spec;
ghost use Rattle.plain_lower.specs.Frame as frame;
ghost use Rattle.plain_lower.specs.Blocks as blocks;

use crate::blocks::push_block;
use crate::firsts::first_values;
use crate::frame::push_store_late;
use crate::lines::{unowned, word_at};
use op_order::{Plan, Slot};
use std::alloc::{AllocError, Global};
use word_program::{Param, Program, Target};
use x86_instr::{Bin, Instr, Lines, Listing, Reg, Src, Text};

/// The registers that pass the parameters, in order.
const PARAM_REGS: [Reg; 6] = [Reg::Rdi, Reg::Rsi, Reg::Rdx, Reg::Rcx, Reg::R8, Reg::R9];

/// The plain listing of a legal plan, under the program's name. The marks of the slots change nothing of it. The one
/// error is want of memory.
pub fn plain(alloc: Global, program: &Program, plan: &Plan) -> Result<Listing, AllocError>
    requires { IsLegal program.now plan.now.slots }
    ensures { IfOk result (λ l. l ≡ spec.plain_listing program.now plan.now.slots) }
{
    let lines = plain_lines(alloc, program, plan.slots())?;
    let name = Text::from_str(alloc, program.name().as_str())?;
    match Listing::new(alloc, name, lines) {
        Ok(listing) => Ok(listing),
        Err(_) => unreachable!(),
    }
}

/// The lines of the listing.
#[tactic(auto, unfolding(crate::specs::Plain::plain_lines))]
fn plain_lines(alloc: Global, program: &Program, slots: &[Slot]) -> Result<Lines, AllocError>
    requires { All (λ slot. slot.op < length program.now.ops) slots.now }
    ensures lines { IfOk result (λ lines. lines ≡ spec.plain_lines program.now slots.now) }
    ensures accepted { IsAccepted program.now }
{
    let mut lines = Lines::new(alloc);
    push_entry(&mut lines, program)?;
    let firsts = first_values(alloc, program)?;
    push_blocks(&mut lines, program, firsts.as_slice(), slots)?;
    push_late_stores(&mut lines, program)?;
    push_exit(&mut lines, program)?;
    Ok(lines)
}

/// The bytes of all slots, as an immediate.
fn frame_bytes(program: &Program) -> Src
    ensures bytes { result ≡ srcs.Imm (pos (frame.frame_bytes program.now)) }
    ensures accepted { IsAccepted program.now }
{
    Src::Imm(8 * (program.params().len() as i32 + program.values() as i32))
}

/// Saves the registers of the parameters in their slots.
fn push_saves(lines: &mut Lines, params: &[Param]) -> Result<(), AllocError>
    requires { length params.now ≤ 6 }
    ensures { OnOk result (lines.new ≡ lines.old ++ spec.saves_from 0 params.now) }
{
    for (param, _) in params.iter().enumerate() {
        lines.push(unowned(Instr::Store {
            mem: word_at(Reg::Rsp, param as u32),
            src: PARAM_REGS[param],
        }))?;
    }
    Ok(())
}

/// Takes the frame, and saves the parameters.
pub fn push_entry(lines: &mut Lines, program: &Program) -> Result<(), AllocError>
    ensures entry { OnOk result (lines.new ≡ lines.old ++ spec.entry program.now) }
    ensures accepted { IsAccepted program.now }
{
    lines.push(unowned(Instr::Bin {
        op: Bin::Sub,
        dst: Reg::Rsp,
        src: frame_bytes(program),
    }))?;
    push_saves(lines, program.params())
}

/// The blocks of slots.
fn push_blocks(
    lines: &mut Lines,
    program: &Program,
    firsts: &[u32],
    slots: &[Slot],
) -> Result<(), AllocError>
    requires firsts { firsts.now ≡ blocks.firsts_of program.now }
    requires ops { All (λ slot. slot.op < length program.now.ops) slots.now }
    ensures { OnOk result (lines.new ≡ lines.old ++ spec.blocks program.now slots.now) }
{
    for slot in slots {
        push_block(lines, program, firsts, *slot)?;
    }
    Ok(())
}

/// Stores the output words among values that were kept.
fn push_late(lines: &mut Lines, program: &Program, targets: &[Target]) -> Result<(), AllocError>
    requires { length targets.now ≤ 4096 }
    ensures { OnOk result (lines.new ≡ lines.old ++ spec.late_from program.now 0 targets.now) }
{
    for (value, target) in targets.iter().enumerate() {
        push_store_late(lines, program, value as u32, *target)?;
    }
    Ok(())
}

/// Stores the output words that were kept, where outputs may share memory with inputs.
pub fn push_late_stores(lines: &mut Lines, program: &Program) -> Result<(), AllocError>
    requires { IsAccepted program.now }
    ensures { OnOk result (lines.new ≡ lines.old ++ spec.late_stores program.now) }
{
    if !program.overlap() {
        return Ok(());
    }
    push_late(lines, program, program.targets())
}

/// Gives the frame back, and returns.
pub fn push_exit(lines: &mut Lines, program: &Program) -> Result<(), AllocError>
    ensures { OnOk result (lines.new ≡ lines.old ++ spec.exit program.now) }
{
    lines.push(unowned(Instr::Bin {
        op: Bin::Add,
        dst: Reg::Rsp,
        src: frame_bytes(program),
    }))?;
    lines.push(unowned(Instr::Ret))
}
