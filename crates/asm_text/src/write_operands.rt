ghost use Rattle.std.specs.Prelude.{◌≡◌, ◌++◌, OnOk, string_bytes, codes, decimal};
ghost use Rattle.asm_operands.specs.Names.{reg_text};
ghost use Rattle.asm_text.specs.Assembly as spec;

use asm_operands::register_name;
use itoa::Buffer;
use std::alloc::AllocError;
use x86_instr::{Index, Mem, Reg, Rm, Src};

/// The first operand, which a space parts from the mnemonic.
#[tactic(auto, unfolding(crate::specs::Assembly::first))]
pub fn push_first(text: &mut String, operand: &str) -> Result<(), AllocError>
    ensures { OnOk result (string_bytes text.new ≡ string_bytes text.old ++ spec.first operand.now) }
{
    text.push_str(" ")?;
    text.push_str(operand)
}

/// Each other operand.
#[tactic(auto, unfolding(crate::specs::Assembly::next))]
pub fn push_next(text: &mut String, operand: &str) -> Result<(), AllocError>
    ensures { OnOk result (string_bytes text.new ≡ string_bytes text.old ++ spec.next operand.now) }
{
    text.push_str(", ")?;
    text.push_str(operand)
}

pub fn push_next_number(text: &mut String, number: u64) -> Result<(), AllocError>
    ensures { OnOk result (string_bytes text.new ≡ string_bytes text.old ++ spec.next (decimal number)) }
{
    push_next(text, Buffer::new().format(number))
}

#[tactic(auto, unfolding(crate::specs::Assembly::first))]
pub fn push_first_rm(text: &mut String, rm: Rm) -> Result<(), AllocError>
    ensures { OnOk result (string_bytes text.new ≡ string_bytes text.old ++ spec.first (spec.rm_text rm)) }
{
    text.push_str(" ")?;
    push_rm(text, rm)
}

#[tactic(auto, unfolding(crate::specs::Assembly::next))]
pub fn push_next_rm(text: &mut String, rm: Rm) -> Result<(), AllocError>
    ensures { OnOk result (string_bytes text.new ≡ string_bytes text.old ++ spec.next (spec.rm_text rm)) }
{
    text.push_str(", ")?;
    push_rm(text, rm)
}

#[tactic(auto, unfolding(crate::specs::Assembly::next))]
pub fn push_next_src(text: &mut String, src: Src) -> Result<(), AllocError>
    ensures { OnOk result (string_bytes text.new ≡ string_bytes text.old ++ spec.next (spec.src_text src)) }
{
    text.push_str(", ")?;
    push_src(text, src)
}

#[tactic(auto, unfolding(crate::specs::Assembly::next))]
pub fn push_next_address(text: &mut String, mem: Mem) -> Result<(), AllocError>
    ensures { OnOk result (string_bytes text.new ≡ string_bytes text.old ++ spec.next (spec.address_text mem)) }
{
    text.push_str(", ")?;
    push_address(text, mem)
}

#[tactic(auto, unfolding(crate::specs::Assembly::first))]
pub fn push_first_mem(text: &mut String, mem: Mem) -> Result<(), AllocError>
    ensures { OnOk result (string_bytes text.new ≡ string_bytes text.old ++ spec.first (spec.mem_text mem)) }
{
    text.push_str(" ")?;
    push_mem(text, mem)
}

#[tactic(auto, unfolding(crate::specs::Assembly::rm_text))]
fn push_rm(text: &mut String, rm: Rm) -> Result<(), AllocError>
    ensures { OnOk result (string_bytes text.new ≡ string_bytes text.old ++ spec.rm_text rm) }
{
    match rm {
        Rm::Reg(reg) => text.push_str(register_name(reg)),
        Rm::Mem(mem) => push_mem(text, mem),
    }
}

#[tactic(auto, unfolding(crate::specs::Assembly::src_text))]
fn push_src(text: &mut String, src: Src) -> Result<(), AllocError>
    ensures { OnOk result (string_bytes text.new ≡ string_bytes text.old ++ spec.src_text src) }
{
    match src {
        Src::Reg(reg) => text.push_str(register_name(reg)),
        Src::Mem(mem) => push_mem(text, mem),
        Src::Imm(number) => text.push_str(Buffer::new().format(number)),
    }
}

#[tactic(auto, unfolding(crate::specs::Assembly::mem_text))]
fn push_mem(text: &mut String, mem: Mem) -> Result<(), AllocError>
    ensures { OnOk result (string_bytes text.new ≡ string_bytes text.old ++ spec.mem_text mem) }
{
    text.push_str("qword ptr ")?;
    push_address(text, mem)
}

#[tactic(auto, unfolding(crate::specs::Assembly::address_text))]
fn push_address(text: &mut String, mem: Mem) -> Result<(), AllocError>
    ensures { OnOk result (string_bytes text.new ≡ string_bytes text.old ++ spec.address_text mem) }
{
    push_base(text, mem.base)?;
    push_index(text, mem.index)?;
    push_displacement(text, mem.disp)?;
    text.push_str("]")
}

fn push_base(text: &mut String, base: Reg) -> Result<(), AllocError>
    ensures { OnOk result (string_bytes text.new ≡ string_bytes text.old ++ (codes "[" ++ reg_text base)) }
{
    text.push_str("[")?;
    text.push_str(register_name(base))
}

#[tactic(auto, unfolding(crate::specs::Assembly::index_text))]
fn push_index(text: &mut String, index: Option<Index>) -> Result<(), AllocError>
    ensures { OnOk result (string_bytes text.new ≡ string_bytes text.old ++ spec.index_text index) }
{
    match index {
        None => Ok(()),
        Some(index) => {
            text.push_str(" + ")?;
            text.push_str(register_name(index.reg.reg()))?;
            text.push_str("*")?;
            text.push_str(Buffer::new().format(index.scale.factor()))
        }
    }
}

#[tactic(auto, unfolding(crate::specs::Assembly::displacement_text))]
fn push_displacement(text: &mut String, disp: i32) -> Result<(), AllocError>
    ensures { OnOk result (string_bytes text.new ≡ string_bytes text.old ++ spec.displacement_text disp) }
{
    if disp == 0 {
        return Ok(());
    }
    text.push_str(if disp < 0 { " - " } else { " + " })?;
    text.push_str(Buffer::new().format(disp.unsigned_abs()))
}
