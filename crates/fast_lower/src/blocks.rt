//! The blocks of the fall-back.
ghost use Rattle.std.specs.Prelude.{◌≡◌, ◌<◌, ◌++◌, ◌∷◌, [], length, map, OnOk};
ghost use Rattle.word_program.specs.Accepted.{HasShift};
ghost use Rattle.x86_instr.specs.declared.operand.Reg.TheVariants.{Rcx, Rsp};
ghost use Rattle.templates.specs.Table.{count_of};
ghost use Rattle.plain_lower.specs.Frame as frame;
ghost use Rattle.plain_lower.specs.Blocks as plain;
ghost use Rattle.fast_lower.specs.FallBack as spec;

use crate::moved::push_sourced;
use crate::sources::{ArrayWord, source_word};
use crate::taken::taken_arg;
use op_order::Slot;
use plain_lower::{
    Place, first_of, load_word, loads_of, push_load, push_middle, push_stores, saves_of, unowned,
    word_at,
};
use std::alloc::{AllocError, Global};
use word_program::{Op, Program};
use x86_instr::{Lines, Reg};

/// Loads the operands that a slot takes.
fn push_taken(
    lines: &mut Lines,
    program: &Program,
    slot: Slot,
    op: &Op,
    loads: &[Place],
) -> Result<(), AllocError>
    ensures { OnOk result (lines.new ≡ lines.old ++ spec.load_taken program.now slot op.now loads.now) }
{
    for (dst, arg) in loads {
        let operand = taken_arg(slot, op, usize::from(*arg));
        push_load(lines, program, *dst, operand)?;
    }
    Ok(())
}

/// The word that the owned instruction reads from the memory, where it does.
fn memory_word(program: &Program, slot: Slot) -> Option<ArrayWord>
    requires op { slot.op < length program.now.ops }
    requires template { slot.template < count_of program.now slot.op }
    ensures { result ≡ spec.memory_word program.now slot }
{
    if slot.load_first {
        return None;
    }
    source_word(program, slot)
}

/// The lines between loads and stores, which read the word from the place in `rcx`.
fn push_moved(
    alloc: Global,
    lines: &mut Lines,
    slot: Slot,
    op: &Op,
    source: ArrayWord,
) -> Result<(), AllocError>
    requires op { slot.op < 2048 }
    requires count { HasShift op.now.kind }
    ensures { OnOk result (lines.new ≡ lines.old ++ map (spec.line_sourced (frame.word_at Rcx source.word))
        ((plain.row_of op.now.kind slot.template).middle slot.op)) }
{
    let mut middle = Lines::new(alloc);
    push_middle(&mut middle, slot.op, op.kind, slot.template)?;
    let mem = word_at(Reg::Rcx, u32::from(source.word));
    push_sourced(lines, &mem, middle.items())
}

/// The loads and the lines behind them, of which one reads a word from the memory.
fn push_from_memory(
    alloc: Global,
    lines: &mut Lines,
    program: &Program,
    slot: Slot,
    op: &Op,
    source: ArrayWord,
) -> Result<(), AllocError>
    requires op { slot.op < 2048 }
    requires count { HasShift op.now.kind }
    ensures { OnOk result (lines.new ≡ lines.old
        ++ (spec.load_taken program.now slot op.now (spec.but_last (plain.row_of op.now.kind slot.template).loads)
        ++ (frame.unowned (frame.load_word Rcx Rsp source.param)
        ∷ map (spec.line_sourced (frame.word_at Rcx source.word))
        ((plain.row_of op.now.kind slot.template).middle slot.op)))) }
{
    let loads = loads_of(op.kind, slot.template);
    let front = &loads[..loads.len().saturating_sub(1)];
    push_taken(lines, program, slot, op, front)?;
    let place = load_word(Reg::Rcx, Reg::Rsp, u32::from(source.param));
    lines.push(unowned(place))?;
    push_moved(alloc, lines, slot, op, source)
}

/// The loads and the lines behind them, where each operand is loaded.
fn push_loaded(lines: &mut Lines, program: &Program, slot: Slot, op: &Op) -> Result<(), AllocError>
    requires op { slot.op < 2048 }
    requires count { HasShift op.now.kind }
    ensures { OnOk result (lines.new ≡ lines.old
        ++ (spec.load_taken program.now slot op.now (plain.row_of op.now.kind slot.template).loads
        ++ (plain.row_of op.now.kind slot.template).middle slot.op)) }
{
    push_taken(lines, program, slot, op, loads_of(op.kind, slot.template))?;
    push_middle(lines, slot.op, op.kind, slot.template)
}

/// The lines of a block before its stores.
fn push_work(
    alloc: Global,
    lines: &mut Lines,
    program: &Program,
    slot: Slot,
    op: &Op,
) -> Result<(), AllocError>
    requires op { slot.op < length program.now.ops }
    requires template { slot.template < count_of program.now slot.op }
    requires few { slot.op < 2048 }
    requires count { HasShift op.now.kind }
    ensures { OnOk result (lines.new ≡ lines.old
        ++ spec.loads_and_middle program.now slot op.now (spec.memory_word program.now slot)) }
{
    match memory_word(program, slot) {
        Some(source) => push_from_memory(alloc, lines, program, slot, op, source),
        None => push_loaded(lines, program, slot, op),
    }
}

/// The block of an operation.
fn push_block_by(
    alloc: Global,
    lines: &mut Lines,
    program: &Program,
    firsts: &[u32],
    slot: Slot,
    op: &Op,
) -> Result<(), AllocError>
    requires firsts { firsts.now ≡ plain.firsts_of program.now }
    requires op { slot.op < length program.now.ops }
    requires template { slot.template < count_of program.now slot.op }
    requires few { slot.op < 2048 }
    requires count { HasShift op.now.kind }
    ensures { OnOk result (lines.new ≡ lines.old ++ spec.block_by program.now slot op.now) }
{
    let value = first_of(program, firsts, slot.op);
    push_work(alloc, lines, program, slot, op)?;
    push_stores(lines, program, value, op, saves_of(op.kind, slot.template))
}

/// The block of a slot.
#[tactic(auto, unfolding(crate::specs::FallBack::block))]
pub fn push_block(
    alloc: Global,
    lines: &mut Lines,
    program: &Program,
    firsts: &[u32],
    slot: Slot,
) -> Result<(), AllocError>
    requires firsts { firsts.now ≡ plain.firsts_of program.now }
    requires op { slot.op < length program.now.ops }
    requires template { slot.template < count_of program.now slot.op }
    ensures { OnOk result (lines.new ≡ lines.old ++ spec.block program.now slot) }
{
    push_block_by(
        alloc,
        lines,
        program,
        firsts,
        slot,
        &program.ops()[slot.op as usize],
    )
}
