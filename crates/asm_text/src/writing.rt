ghost use Rattle.std.specs.Prelude.{◌≡◌, ◌++◌, true, IfOk, OnOk, string_bytes, decimal};
ghost use Rattle.std.specs.List.{flat_map};
ghost use Rattle.asm_operands.specs.Names.{reg_text};
ghost use Rattle.std.specs.Str.Lines.{lines};
ghost use Rattle.base.specs.Identifiers.{is_identifier};
ghost use Rattle.x86_instr.specs.Fits.{FitsLines};
ghost use Rattle.asm_text.specs.Assembly as spec;
ghost use Rattle.asm_text.specs.Texts.{Stands};

use crate::write_operands::{
    push_first, push_first_mem, push_first_rm, push_next, push_next_address, push_next_number,
    push_next_rm, push_next_src,
};
use asm_operands::{byte_register_name, mnemonic_name, register_name};
use itoa::Buffer;
use std::alloc::{AllocError, Global};
use x86_instr::{Instr, Line, Listing, Owner, Reg, Rm, mnemonic_of};

/// The text of a listing: four header lines, and a line for each instruction. Where the name of the listing is
/// an identifier, the text stands for the listing, and for no other one. The one error is want of memory.
pub fn write(alloc: Global, listing: &Listing) -> Result<Vec<u8>, AllocError>
    ensures text { IfOk result (λ text. text.items ≡ spec.text_of listing.now) }
    ensures stands { IfOk result (λ text. is_identifier listing.entry.now.name ≡ true
        → Stands (lines text.items) listing.entry.now) }
{
    let text = text_of(alloc, listing)?;
    Ok(text)
}

#[tactic(auto, unfolding(crate::specs::Assembly::text_of))]
fn text_of(alloc: Global, listing: &Listing) -> Result<Vec<u8>, AllocError>
    ensures text { IfOk result (λ text. text.items ≡ spec.text_of listing.now) }
    ensures fits { OnOk result (FitsLines listing.now.lines) }
{
    let mut text = String::new(alloc);
    push_header(&mut text, listing.name().as_str())?;
    push_lines(&mut text, listing.lines())?;
    Ok(text.into_bytes())
}

#[tactic(auto, unfolding(crate::specs::Assembly::header_text))]
fn push_header(text: &mut String, name: &str) -> Result<(), AllocError>
    ensures { OnOk result (string_bytes text.new ≡ string_bytes text.old ++ spec.header_text name.now) }
{
    text.push_str(".intel_syntax noprefix\n.text\n.globl ")?;
    text.push_str(name)?;
    text.push_str("\n")?;
    text.push_str(name)?;
    text.push_str(":\n")
}

fn push_lines(text: &mut String, lines: &[Line]) -> Result<(), AllocError>
    ensures { OnOk result (string_bytes text.new ≡ string_bytes text.old ++ flat_map spec.line_text lines.now) }
{
    for line in lines {
        push_line(text, *line)?;
    }
    Ok(())
}

#[tactic(auto, unfolding(crate::specs::Assembly::line_text))]
fn push_line(text: &mut String, line: Line) -> Result<(), AllocError>
    ensures { OnOk result (string_bytes text.new ≡ string_bytes text.old ++ spec.line_text line) }
{
    text.push_str("    ")?;
    push_instr(text, line.instr)?;
    push_owner(text, line.owner)?;
    text.push_str("\n")
}

#[tactic(auto, unfolding(crate::specs::Assembly::owner_text))]
fn push_owner(text: &mut String, owner: Option<Owner>) -> Result<(), AllocError>
    ensures { OnOk result (string_bytes text.new ≡ string_bytes text.old ++ spec.owner_text owner) }
{
    match owner {
        None => Ok(()),
        Some(owner) => {
            text.push_str(" # ")?;
            text.push_str(Buffer::new().format(owner.op()))
        }
    }
}

#[tactic(auto, unfolding(crate::specs::Assembly::instr_text))]
fn push_instr(text: &mut String, instr: Instr) -> Result<(), AllocError>
    ensures { OnOk result (string_bytes text.new ≡ string_bytes text.old ++ spec.instr_text instr) }
{
    text.push_str(mnemonic_name(mnemonic_of(&instr)))?;
    push_operands(text, instr)
}

#[tactic(auto, unfolding(crate::specs::Assembly::operands_text))]
fn push_operands(text: &mut String, instr: Instr) -> Result<(), AllocError>
    ensures { OnOk result (string_bytes text.new ≡ string_bytes text.old ++ spec.operands_text instr) }
{
    match instr {
        Instr::Mov { dst, src } => push_reg_rm(text, dst, src),
        Instr::MovImm { dst, imm } => push_reg_number(text, dst, imm),
        Instr::Store { mem, src } => {
            push_first_mem(text, mem)?;
            push_next(text, register_name(src))
        }
        Instr::Lea { dst, mem } => {
            push_first(text, register_name(dst))?;
            push_next_address(text, mem)
        }
        Instr::Bin { dst, src, .. } => {
            push_first(text, register_name(dst))?;
            push_next_src(text, src)
        }
        Instr::Test { a, b } => push_regs(text, a, b),
        Instr::Un { dst, .. } => push_first(text, register_name(dst)),
        Instr::Adcx { dst, src } => push_reg_rm(text, dst, src),
        Instr::Adox { dst, src } => push_reg_rm(text, dst, src),
        Instr::Mulx { hi, lo, src } => {
            push_first(text, register_name(hi))?;
            push_next(text, register_name(lo))?;
            push_next_rm(text, src)
        }
        Instr::Mul { src } => push_first_rm(text, src),
        Instr::Imul { dst, src } => push_reg_rm(text, dst, src),
        Instr::Shl { dst, by } => push_reg_number(text, dst, by.bits() as u64),
        Instr::Shr { dst, by } => push_reg_number(text, dst, by.bits() as u64),
        Instr::Shrd { dst, src, by } => {
            push_first(text, register_name(dst))?;
            push_next(text, register_name(src))?;
            push_next_number(text, by.bits() as u64)
        }
        Instr::Shlx { dst, src, count } => push_counted(text, dst, src, count),
        Instr::Shrx { dst, src, count } => push_counted(text, dst, src, count),
        Instr::Set { dst, .. } => push_first(text, byte_register_name(dst)),
        Instr::Movzx { dst, src } => {
            push_first(text, register_name(dst))?;
            push_next(text, byte_register_name(src))
        }
        Instr::Cmov { dst, src, .. } => push_reg_rm(text, dst, src),
        Instr::Clc | Instr::Ret => Ok(()),
    }
}

fn push_reg_rm(text: &mut String, dst: Reg, src: Rm) -> Result<(), AllocError>
    ensures { OnOk result (string_bytes text.new ≡ string_bytes text.old
        ++ (spec.first (reg_text dst) ++ spec.next (spec.rm_text src))) }
{
    push_first(text, register_name(dst))?;
    push_next_rm(text, src)
}

fn push_regs(text: &mut String, a: Reg, b: Reg) -> Result<(), AllocError>
    ensures { OnOk result (string_bytes text.new ≡ string_bytes text.old
        ++ (spec.first (reg_text a) ++ spec.next (reg_text b))) }
{
    push_first(text, register_name(a))?;
    push_next(text, register_name(b))
}

fn push_reg_number(text: &mut String, dst: Reg, number: u64) -> Result<(), AllocError>
    ensures { OnOk result (string_bytes text.new ≡ string_bytes text.old
        ++ (spec.first (reg_text dst) ++ spec.next (decimal number))) }
{
    push_first(text, register_name(dst))?;
    push_next_number(text, number)
}

fn push_counted(text: &mut String, dst: Reg, src: Rm, count: Reg) -> Result<(), AllocError>
    ensures { OnOk result (string_bytes text.new ≡ string_bytes text.old
        ++ (spec.first (reg_text dst) ++ (spec.next (spec.rm_text src) ++ spec.next (reg_text count)))) }
{
    push_first(text, register_name(dst))?;
    push_next_rm(text, src)?;
    push_next(text, register_name(count))
}
