ghost use Rattle.std.specs.Prelude.{◌≡◌, option_map};
ghost use Rattle.asm_tokens.specs.Tokens.{tokens};
ghost use Rattle.asm_text.specs.Instructions as spec;

use asm_operands::{
    after, byte_register_at, count_at, is_spaced, memory_at, register_at, rm_at, src_at, wide_at,
};
use asm_tokens::next;
use x86_instr::{Mem, Reg, Rm, ShiftCount, Src};

pub fn is_end(text: &[u8]) -> bool
    ensures { result ≡ spec.is_end (tokens text.now) }
{
    next(text).is_none()
}

/// The operands, which a blank parts from the mnemonic.
#[tactic(auto, unfolding(crate::specs::Instructions::operands))]
pub fn operands(text: &[u8]) -> Option<&[u8]>
    ensures { option_map (λ rest. tokens rest.now) result ≡ spec.operands (tokens text.now) }
{
    if !is_spaced(text) {
        return None;
    }
    Some(text)
}

#[tactic(auto, unfolding(crate::specs::Instructions::register_comma))]
pub fn register_comma(text: &[u8]) -> Option<(Reg, &[u8])>
    ensures { option_map (λ p. (p.0, tokens p.1.now)) result ≡ spec.register_comma (tokens text.now) }
{
    let (reg, rest) = register_at(text)?;
    Some((reg, after(rest, b",".as_slice())?))
}

/// The destination register, behind which a comma stands.
#[tactic(auto, unfolding(crate::specs::Instructions::destination))]
pub fn destination(text: &[u8]) -> Option<(Reg, &[u8])>
    ensures { option_map (λ p. (p.0, tokens p.1.now)) result ≡ spec.destination (tokens text.now) }
{
    register_comma(operands(text)?)
}

#[tactic(auto, unfolding(crate::specs::Instructions::last_register))]
pub fn last_register(text: &[u8]) -> Option<Reg>
    ensures { result ≡ spec.last_register (tokens text.now) }
{
    let (operand, rest) = register_at(text)?;
    if !is_end(rest) {
        return None;
    }
    Some(operand)
}

#[tactic(auto, unfolding(crate::specs::Instructions::last_byte_register))]
pub fn last_byte_register(text: &[u8]) -> Option<Reg>
    ensures { result ≡ spec.last_byte_register (tokens text.now) }
{
    let (operand, rest) = byte_register_at(text)?;
    if !is_end(rest) {
        return None;
    }
    Some(operand)
}

#[tactic(auto, unfolding(crate::specs::Instructions::last_memory))]
pub fn last_memory(text: &[u8]) -> Option<Mem>
    ensures { result ≡ spec.last_memory (tokens text.now) }
{
    let Some((operand, rest)) = memory_at(text) else {
        return None;
    };
    if !is_end(rest) {
        return None;
    }
    Some(operand)
}

#[tactic(auto, unfolding(crate::specs::Instructions::last_rm))]
pub fn last_rm(text: &[u8]) -> Option<Rm>
    ensures { result ≡ spec.last_rm (tokens text.now) }
{
    let Some((operand, rest)) = rm_at(text) else {
        return None;
    };
    if !is_end(rest) {
        return None;
    }
    Some(operand)
}

#[tactic(auto, unfolding(crate::specs::Instructions::last_src))]
pub fn last_src(text: &[u8]) -> Option<Src>
    ensures { result ≡ spec.last_src (tokens text.now) }
{
    let Some((operand, rest)) = src_at(text) else {
        return None;
    };
    if !is_end(rest) {
        return None;
    }
    Some(operand)
}

#[tactic(auto, unfolding(crate::specs::Instructions::last_count))]
pub fn last_count(text: &[u8]) -> Option<ShiftCount>
    ensures { result ≡ spec.last_count (tokens text.now) }
{
    let Some((operand, rest)) = count_at(text) else {
        return None;
    };
    if !is_end(rest) {
        return None;
    }
    Some(operand)
}

#[tactic(auto, unfolding(crate::specs::Instructions::last_wide))]
pub fn last_wide(text: &[u8]) -> Option<u64>
    ensures { result ≡ spec.last_wide (tokens text.now) }
{
    let (operand, rest) = wide_at(text)?;
    if !is_end(rest) {
        return None;
    }
    Some(operand)
}

#[tactic(auto, unfolding(crate::specs::Instructions::register_rm))]
pub fn register_rm(text: &[u8]) -> Option<(Reg, Rm)>
    ensures { result ≡ spec.register_rm (tokens text.now) }
{
    let (dst, rest) = destination(text)?;
    Some((dst, last_rm(rest)?))
}

#[tactic(auto, unfolding(crate::specs::Instructions::register_count))]
pub fn register_count(text: &[u8]) -> Option<(Reg, ShiftCount)>
    ensures { result ≡ spec.register_count (tokens text.now) }
{
    let (dst, rest) = destination(text)?;
    Some((dst, last_count(rest)?))
}

#[tactic(auto, unfolding(crate::specs::Instructions::counted))]
pub fn counted(text: &[u8]) -> Option<(Reg, Rm, Reg)>
    ensures { result ≡ spec.counted (tokens text.now) }
{
    let (dst, rest) = destination(text)?;
    let Some((src, rest)) = rm_at(rest) else {
        return None;
    };
    let rest = after(rest, b",".as_slice())?;
    Some((dst, src, last_register(rest)?))
}
