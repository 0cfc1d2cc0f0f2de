ghost use Rattle.std.specs.Prelude.{◌≡◌, option_map};
ghost use Rattle.base.specs.Options.{guard};
ghost use Rattle.asm_tokens.specs.Tokens.{tokens, after, is_spaced};
ghost use Rattle.x86_instr.specs.Ranges.{is_scale, is_shift_count};
ghost use Rattle.asm_operands.specs.Operands as spec;

use crate::names::{byte_register_named, register_named};
use asm_tokens::next;
use base::word;
use x86_instr::{Index, IndexReg, Mem, Reg, Rm, Scale, ShiftCount, Src};

/// What follows the first token, where that is the one given.
pub fn after<'a>(text: &'a [u8], token: &[u8]) -> Option<&'a [u8]>
    ensures { option_map (λ rest. tokens rest.now) result ≡ after token.now (tokens text.now) }
{
    let first = next(text)?;
    if first.text != token {
        return None;
    }
    Some(first.rest)
}

/// Whether a blank stands before the first token.
pub fn is_spaced(text: &[u8]) -> bool
    ensures { result ≡ is_spaced (tokens text.now) }
{
    match next(text) {
        Some(first) => first.spaced,
        None => false,
    }
}

/// The register of 64 bits that a text begins with, and what follows it.
#[tactic(auto, unfolding(crate::specs::Operands::register_at))]
pub fn register_at(text: &[u8]) -> Option<(Reg, &[u8])>
    ensures { option_map (λ p. (p.0, tokens p.1.now)) result ≡ spec.register_at (tokens text.now) }
{
    let first = next(text)?;
    Some((register_named(first.text)?, first.rest))
}

/// The low byte of a register that a text begins with, and what follows it.
#[tactic(auto, unfolding(crate::specs::Operands::byte_register_at))]
pub fn byte_register_at(text: &[u8]) -> Option<(Reg, &[u8])>
    ensures { option_map (λ p. (p.0, tokens p.1.now)) result ≡ spec.byte_register_at (tokens text.now) }
{
    let first = next(text)?;
    Some((byte_register_named(first.text)?, first.rest))
}

/// The number that a text begins with, and what follows it.
#[tactic(auto, unfolding(crate::specs::Operands::number_at))]
fn number_at(text: &[u8]) -> Option<(u64, &[u8])>
    ensures { option_map (λ p. (p.0, tokens p.1.now)) result ≡ spec.number_at (tokens text.now) }
{
    let first = next(text)?;
    Some((word(first.text)?, first.rest))
}

/// The register or memory operand that a text begins with, and what follows it.
#[tactic(auto, unfolding(crate::specs::Operands::rm_at))]
pub fn rm_at(text: &[u8]) -> Option<(Rm, &[u8])>
    ensures { option_map (λ p. (p.0, tokens p.1.now)) result ≡ spec.rm_at (tokens text.now) }
{
    if let Some((reg, rest)) = register_at(text) {
        return Some((Rm::Reg(reg), rest));
    }
    let Some((mem, rest)) = memory_at(text) else {
        return None;
    };
    Some((Rm::Mem(mem), rest))
}

/// The register, memory or immediate operand that a text begins with, and what follows it.
#[tactic(auto, unfolding(crate::specs::Operands::src_at))]
pub fn src_at(text: &[u8]) -> Option<(Src, &[u8])>
    ensures { option_map (λ p. (p.0, tokens p.1.now)) result ≡ spec.src_at (tokens text.now) }
{
    if let Some((reg, rest)) = register_at(text) {
        return Some((Src::Reg(reg), rest));
    }
    if let Some((mem, rest)) = memory_at(text) {
        return Some((Src::Mem(mem), rest));
    }
    let (number, rest) = small_at(text)?;
    Some((Src::Imm(number), rest))
}

/// The memory operand that a text begins with, and what follows it.
#[tactic(auto, unfolding(crate::specs::Operands::memory_at))]
pub fn memory_at(text: &[u8]) -> Option<(Mem, &[u8])>
    ensures { option_map (λ p. (p.0, tokens p.1.now)) result ≡ spec.memory_at (tokens text.now) }
{
    let inner = opened(text)?;
    let (base, inner) = register_at(inner)?;
    let Some((index, inner)) = index_at(inner) else {
        return None;
    };
    let (disp, inner) = displacement_at(inner)?;
    let rest = after(inner, b"]".as_slice())?;
    Some((Mem { base, index, disp }, rest))
}

/// What follows `[`, before which `qword ptr` may stand.
#[tactic(auto, unfolding(crate::specs::Operands::opened))]
fn opened(text: &[u8]) -> Option<&[u8]>
    ensures { option_map (λ rest. tokens rest.now) result ≡ spec.opened (tokens text.now) }
{
    if let Some(rest) = after(text, b"qword".as_slice()) {
        return after(after(rest, b"ptr".as_slice())?, b"[".as_slice());
    }
    after(text, b"[".as_slice())
}

#[tactic(auto, unfolding(crate::specs::Operands::plus_register))]
fn plus_register(text: &[u8]) -> Option<(Reg, &[u8])>
    ensures { option_map (λ p. (p.0, tokens p.1.now)) result ≡ spec.plus_register (tokens text.now) }
{
    register_at(after(text, b"+".as_slice())?)
}

#[tactic(auto, unfolding(crate::specs::Operands::index_at))]
fn index_at(text: &[u8]) -> Option<(Option<Index>, &[u8])>
    ensures { option_map (λ p. (p.0, tokens p.1.now)) result ≡ spec.index_at (tokens text.now) }
{
    if let Some((reg, rest)) = plus_register(text) {
        return scaled(IndexReg::new(reg)?, rest);
    }
    Some((None, text))
}

#[tactic(auto, unfolding(crate::specs::Operands::scaled))]
fn scaled(reg: IndexReg, text: &[u8]) -> Option<(Option<Index>, &[u8])>
    ensures { option_map (λ p. (p.0, tokens p.1.now)) result ≡ spec.scaled reg (tokens text.now) }
{
    let Some((scale, rest)) = scale_at(text) else {
        return None;
    };
    Some((Some(Index { reg, scale }), rest))
}

/// The scale behind an index, 1 where none is written.
#[tactic(auto, unfolding(crate::specs::Operands::scale_at))]
fn scale_at(text: &[u8]) -> Option<(Scale, &[u8])>
    ensures { option_map (λ p. (p.0, tokens p.1.now)) result ≡ spec.scale_at (tokens text.now) }
{
    if let Some(rest) = after(text, b"*".as_slice()) {
        let (factor, rest) = number_at(rest)?;
        return Some((scale_of(factor)?, rest));
    }
    Some((Scale::new(1)?, text))
}

fn scale_of(factor: u64) -> Option<Scale>
    ensures { result ≡ guard (is_scale factor) factor }
{
    if factor > 8 {
        return None;
    }
    Scale::new(factor as u8)
}

fn count_of(bits: u64) -> Option<ShiftCount>
    ensures { result ≡ guard (is_shift_count bits) bits }
{
    if bits > 63 {
        return None;
    }
    ShiftCount::new(bits as u8)
}

#[tactic(auto, unfolding(crate::specs::Operands::displacement_at))]
fn displacement_at(text: &[u8]) -> Option<(i32, &[u8])>
    ensures { option_map (λ p. (p.0, tokens p.1.now)) result ≡ spec.displacement_at (tokens text.now) }
{
    if let Some(rest) = after(text, b"+".as_slice()) {
        return offset_at(false, rest);
    }
    if let Some(rest) = after(text, b"-".as_slice()) {
        return offset_at(true, rest);
    }
    Some((0, text))
}

#[tactic(auto, unfolding(crate::specs::Operands::offset_at))]
fn offset_at(minus: bool, text: &[u8]) -> Option<(i32, &[u8])>
    ensures { option_map (λ p. (p.0, tokens p.1.now)) result ≡ spec.offset_at minus (tokens text.now) }
{
    let (number, rest) = number_at(text)?;
    Some((signed_of(minus, number)?, rest))
}

/// Whether a minus stands before the number, with no blank between them, and the number.
#[tactic(auto, unfolding(crate::specs::Operands::immediate_at))]
fn immediate_at(text: &[u8]) -> Option<(bool, u64, &[u8])>
    ensures { option_map (λ p. (p.0, p.1, tokens p.2.now)) result ≡ spec.immediate_at (tokens text.now) }
{
    if let Some(rest) = after(text, b"-".as_slice()) {
        if is_spaced(rest) {
            return None;
        }
        let (number, rest) = number_at(rest)?;
        return Some((true, number, rest));
    }
    let (number, rest) = number_at(text)?;
    Some((false, number, rest))
}

/// An immediate that is extended with its sign.
#[tactic(auto, unfolding(crate::specs::Operands::small_at))]
fn small_at(text: &[u8]) -> Option<(i32, &[u8])>
    ensures { option_map (λ p. (p.0, tokens p.1.now)) result ≡ spec.small_at (tokens text.now) }
{
    let (minus, number, rest) = immediate_at(text)?;
    Some((signed_of(minus, number)?, rest))
}

/// An immediate of 64 bits.
#[tactic(auto, unfolding(crate::specs::Operands::wide_at))]
pub fn wide_at(text: &[u8]) -> Option<(u64, &[u8])>
    ensures { option_map (λ p. (p.0, tokens p.1.now)) result ≡ spec.wide_at (tokens text.now) }
{
    let (minus, number, rest) = immediate_at(text)?;
    Some((word_of(minus, number)?, rest))
}

/// The count of bits, from 1 to 63, that a text begins with, and what follows it.
#[tactic(auto, unfolding(crate::specs::Operands::count_at))]
pub fn count_at(text: &[u8]) -> Option<(ShiftCount, &[u8])>
    ensures { option_map (λ p. (p.0, tokens p.1.now)) result ≡ spec.count_at (tokens text.now) }
{
    let (bits, rest) = number_at(text)?;
    Some((count_of(bits)?, rest))
}

/// A number with its sign, from -2^31 to 2^31 - 1.
fn signed_of(minus: bool, number: u64) -> Option<i32>
    ensures { result ≡ spec.signed_of minus number }
{
    if minus {
        if number > 1 << 31 {
            return None;
        }
        return Some((-(number as i64)) as i32);
    }
    if number >= 1 << 31 {
        return None;
    }
    Some(number as i32)
}

/// A number with its sign, from -2^63 to 2^64 - 1, modulo 2^64.
fn word_of(minus: bool, number: u64) -> Option<u64>
    ensures { result ≡ spec.word_of minus number }
{
    if minus {
        if number > 1 << 63 {
            return None;
        }
        return Some(number.wrapping_neg());
    }
    Some(number)
}
