ghost use Rattle.std.specs.Prelude.{◌≡◌, ◌≤◌, ◌++◌, OnOk};
ghost use Rattle.x86_instr.specs.declared.instr.Instr.TheVariants as instrs;
ghost use Rattle.x86_instr.specs.declared.operand.Rm.TheVariants as rms;
ghost use Rattle.plain_lower.specs.Frame as spec;

use crate::lines::{load_word, unowned, word_at};
use std::alloc::AllocError;
use word_program::{Operand, Program, Role, Target};
use x86_instr::{Instr, Lines, Mem, Reg, Rm};

/// The slot of a value.
fn value_slot(program: &Program, value: u32) -> Mem
    requires { value ≤ 65535 }
    ensures { result ≡ spec.value_slot program.now value }
{
    word_at(Reg::Rsp, program.params().len() as u32 + value)
}

/// A value out of its slot into a register.
fn load_value(program: &Program, dst: Reg, value: u32) -> Instr
    requires { value ≤ 65535 }
    ensures { result ≡ instrs.Mov dst (rms.Mem (spec.value_slot program.now value)) }
{
    Instr::Mov {
        dst,
        src: Rm::Mem(value_slot(program, value)),
    }
}

fn role_of(program: &Program, param: u8) -> Option<Role>
    ensures { result ≡ spec.role_of program.now param }
{
    Some(program.params().get(param as usize)?.role)
}

/// Loads a word of an input into a register: of a scalar from its slot, and of an array from the place there.
fn push_load_input(
    lines: &mut Lines,
    role: Option<Role>,
    dst: Reg,
    param: u8,
    word: u8,
) -> Result<(), AllocError>
    ensures { OnOk result (lines.new ≡ lines.old ++ spec.load_input role dst param word) }
{
    match role {
        None | Some(Role::Output) => Ok(()),
        Some(Role::InputScalar) => lines.push(unowned(load_word(dst, Reg::Rsp, u32::from(param)))),
        Some(Role::InputArray) => {
            lines.push(unowned(load_word(dst, Reg::Rsp, u32::from(param))))?;
            lines.push(unowned(load_word(dst, dst, u32::from(word))))
        }
    }
}

/// Loads an operand into a register.
pub fn push_load(
    lines: &mut Lines,
    program: &Program,
    dst: Reg,
    operand: Operand,
) -> Result<(), AllocError>
    ensures { OnOk result (lines.new ≡ lines.old ++ spec.load program.now dst operand) }
{
    match operand {
        Operand::Literal(imm) => lines.push(unowned(Instr::MovImm { dst, imm })),
        Operand::Input { param, word } => {
            push_load_input(lines, role_of(program, param), dst, param, word)
        }
        Operand::Value(value) => { lines.push(unowned(load_value(program, dst, u32::from(value)))) }
    }
}

/// Stores a register in the slot of a value.
fn push_keep(lines: &mut Lines, program: &Program, value: u32, src: Reg) -> Result<(), AllocError>
    requires { value ≤ 65535 }
    ensures { OnOk result (lines.new ≡ lines.old ++ spec.keep program.now value src) }
{
    lines.push(unowned(Instr::Store {
        mem: value_slot(program, value),
        src,
    }))
}

/// Stores a register in a word of an output.
fn push_put_out(lines: &mut Lines, param: u8, word: u8, src: Reg) -> Result<(), AllocError>
    ensures { OnOk result (lines.new ≡ lines.old ++ spec.put_out param word src) }
{
    lines.push(unowned(load_word(Reg::R11, Reg::Rsp, u32::from(param))))?;
    lines.push(unowned(Instr::Store {
        mem: word_at(Reg::R11, u32::from(word)),
        src,
    }))
}

/// Stores a result, which is the value with this number, out of a register.
pub fn push_store(
    lines: &mut Lines,
    program: &Program,
    value: u32,
    target: Target,
    src: Reg,
) -> Result<(), AllocError>
    requires { value ≤ 65535 }
    ensures { OnOk result (lines.new ≡ lines.old ++ spec.store program.now value target src) }
{
    match target {
        Target::Value => push_keep(lines, program, value, src),
        Target::Unused => Ok(()),
        Target::Output { param, word } => {
            if program.overlap() {
                push_keep(lines, program, value, src)
            } else {
                push_put_out(lines, param, word, src)
            }
        }
    }
}

/// Stores a word of an output that was kept as the value with this number.
pub fn push_store_late(
    lines: &mut Lines,
    program: &Program,
    value: u32,
    target: Target,
) -> Result<(), AllocError>
    requires { value ≤ 65535 }
    ensures { OnOk result (lines.new ≡ lines.old ++ spec.store_late program.now value target) }
{
    match target {
        Target::Value | Target::Unused => Ok(()),
        Target::Output { param, word } => {
            lines.push(unowned(load_value(program, Reg::Rax, value)))?;
            push_put_out(lines, param, word, Reg::Rax)
        }
    }
}
