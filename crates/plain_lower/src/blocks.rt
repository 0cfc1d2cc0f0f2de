ghost use Rattle.std.specs.Prelude.{◌≡◌, ◌≤◌, ◌<◌, ◌++◌, length, OnOk};
ghost use Rattle.word_program.specs.Accepted.{HasShift, IsAccepted};
ghost use Rattle.dependency_graph.specs.Needs.{first_value};
ghost use Rattle.op_order.specs.declared.slot.Slot.{Slot};
ghost use Rattle.plain_lower.specs.Blocks as spec;

use crate::frame::{push_load, push_store};
use crate::middles::push_middle;
use crate::rows::{Place, loads_of, saves_of};
use op_order::Slot;
use std::alloc::AllocError;
use word_program::{Op, Operand, Program, Target};
use x86_instr::Lines;

fn arg_at(op: &Op, place: u8) -> Operand
    ensures { result ≡ spec.arg_at op.now place }
{
    op.args
        .items()
        .get(place as usize)
        .copied()
        .unwrap_or(Operand::Literal(0))
}

fn target_at(op: &Op, place: u8) -> Target
    ensures { result ≡ spec.target_at op.now place }
{
    op.targets
        .items()
        .get(place as usize)
        .copied()
        .unwrap_or(Target::Unused)
}

/// Loads the operands of an operation.
fn push_loads(
    lines: &mut Lines,
    program: &Program,
    op: &Op,
    loads: &[Place],
) -> Result<(), AllocError>
    ensures { OnOk result (lines.new ≡ lines.old ++ spec.load_all program.now op.now loads.now) }
{
    for (dst, arg) in loads {
        push_load(lines, program, *dst, arg_at(op, *arg))?;
    }
    Ok(())
}

/// Stores the results of an operation, of which the first one is the value with this number.
pub fn push_stores(
    lines: &mut Lines,
    program: &Program,
    value: u32,
    op: &Op,
    saves: &[Place],
) -> Result<(), AllocError>
    requires { value ≤ 4096 }
    ensures { OnOk result (lines.new ≡ lines.old ++ spec.store_all program.now value op.now saves.now) }
{
    for (src, number) in saves {
        let target = target_at(op, *number);
        push_store(lines, program, value + u32::from(*number), target, *src)?;
    }
    Ok(())
}

/// The value number of the first result of an operation.
#[tactic(auto, using(crate::proofs::FirstValues::firsts_count, crate::proofs::FirstValues::first_at, crate::proofs::FirstValues::first_few))]
pub fn first_of(program: &Program, firsts: &[u32], op: u16) -> u32
    requires firsts { firsts.now ≡ spec.firsts_of program.now }
    requires op { op < length program.now.ops }
    ensures first { result ≡ first_value program.now op }
    ensures few { result ≤ 4096 }
{
    let _ops = program.ops();
    firsts[op as usize]
}

/// The block of an operation by the template with this number.
fn push_block_of(
    lines: &mut Lines,
    program: &Program,
    firsts: &[u32],
    slot: Slot,
    op: &Op,
) -> Result<(), AllocError>
    requires accepted { IsAccepted program.now }
    requires firsts { firsts.now ≡ spec.firsts_of program.now }
    requires op { slot.op < length program.now.ops }
    requires count { HasShift op.now.kind }
    ensures { OnOk result (lines.new ≡ lines.old
        ++ spec.block_of program.now slot.op (spec.row_of op.now.kind slot.template) op.now) }
{
    let value = first_of(program, firsts, slot.op);
    push_loads(lines, program, op, loads_of(op.kind, slot.template))?;
    push_middle(lines, slot.op, op.kind, slot.template)?;
    push_stores(lines, program, value, op, saves_of(op.kind, slot.template))
}

/// The block of a slot.
#[tactic(auto, unfolding(crate::specs::Blocks::block))]
pub fn push_block(
    lines: &mut Lines,
    program: &Program,
    firsts: &[u32],
    slot: Slot,
) -> Result<(), AllocError>
    requires firsts { firsts.now ≡ spec.firsts_of program.now }
    requires op { slot.op < length program.now.ops }
    ensures { OnOk result (lines.new ≡ lines.old ++ spec.block program.now slot) }
{
    push_block_of(
        lines,
        program,
        firsts,
        slot,
        &program.ops()[slot.op as usize],
    )
}
