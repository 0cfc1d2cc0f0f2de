ghost use Rattle.std.specs.Prelude.{◌≡◌};
ghost use Rattle.asm_tokens.specs.Tokens.{tokens};
ghost use Rattle.asm_text.specs.Instructions as spec;

use crate::parts::{
    counted, destination, is_end, last_byte_register, last_count, last_memory, last_register,
    last_rm, last_src, last_wide, operands, register_comma, register_count, register_rm,
};
use asm_operands::{after, memory_at, mnemonic_named};
use asm_tokens::next;
use x86_instr::{Bin, Cond, Instr, Mnemonic, Reg, Un};

/// The instruction that a line without its comment is.
#[tactic(auto, unfolding(crate::specs::Instructions::instr_in))]
pub fn instr_in(text: &[u8]) -> Option<Instr>
    ensures { result ≡ spec.instr_in (tokens text.now) }
{
    let mnemonic = next(text)?;
    instr_named(mnemonic_named(mnemonic.text)?, mnemonic.rest)
}

#[tactic(auto, unfolding(crate::specs::Instructions::instr_named))]
fn instr_named(mnemonic: Mnemonic, text: &[u8]) -> Option<Instr>
    ensures { result ≡ spec.instr_named mnemonic (tokens text.now) }
{
    match mnemonic {
        Mnemonic::Mov => mov(text),
        Mnemonic::Movzx => movzx(text),
        Mnemonic::Lea => lea(text),
        Mnemonic::Not => un(Un::Not, text),
        Mnemonic::Add => bin(Bin::Add, text),
        Mnemonic::Adc => bin(Bin::Adc, text),
        Mnemonic::Sub => bin(Bin::Sub, text),
        Mnemonic::Cmp => bin(Bin::Cmp, text),
        Mnemonic::Sbb => bin(Bin::Sbb, text),
        Mnemonic::Neg => un(Un::Neg, text),
        Mnemonic::Inc => un(Un::Inc, text),
        Mnemonic::Dec => un(Un::Dec, text),
        Mnemonic::And => bin(Bin::And, text),
        Mnemonic::Or => bin(Bin::Or, text),
        Mnemonic::Xor => bin(Bin::Xor, text),
        Mnemonic::Test => test_row(text),
        Mnemonic::Clc => plain(Instr::Clc, text),
        Mnemonic::Adcx => adcx(text),
        Mnemonic::Adox => adox(text),
        Mnemonic::Mulx => mulx(text),
        Mnemonic::Mul => mul(text),
        Mnemonic::Imul => imul(text),
        Mnemonic::Shl => shl(text),
        Mnemonic::Shr => shr(text),
        Mnemonic::Shrd => shrd(text),
        Mnemonic::Shlx => shlx(text),
        Mnemonic::Shrx => shrx(text),
        Mnemonic::Seto => set(Cond::O, text),
        Mnemonic::Setno => set(Cond::No, text),
        Mnemonic::Setc => set(Cond::C, text),
        Mnemonic::Setnc => set(Cond::Nc, text),
        Mnemonic::Setz => set(Cond::Z, text),
        Mnemonic::Setnz => set(Cond::Nz, text),
        Mnemonic::Cmovo => cmov(Cond::O, text),
        Mnemonic::Cmovno => cmov(Cond::No, text),
        Mnemonic::Cmovc => cmov(Cond::C, text),
        Mnemonic::Cmovnc => cmov(Cond::Nc, text),
        Mnemonic::Cmovz => cmov(Cond::Z, text),
        Mnemonic::Cmovnz => cmov(Cond::Nz, text),
        Mnemonic::Ret => plain(Instr::Ret, text),
    }
}

#[tactic(auto, unfolding(crate::specs::Instructions::mov))]
fn mov(text: &[u8]) -> Option<Instr>
    ensures { result ≡ spec.mov (tokens text.now) }
{
    if let Some((dst, rest)) = destination(text) {
        return mov_to_register(dst, rest);
    }
    store(operands(text)?)
}

#[tactic(auto, unfolding(crate::specs::Instructions::mov_to_register))]
fn mov_to_register(dst: Reg, text: &[u8]) -> Option<Instr>
    ensures { result ≡ spec.mov_to_register dst (tokens text.now) }
{
    if let Some(src) = last_rm(text) {
        return Some(Instr::Mov { dst, src });
    }
    let imm = last_wide(text)?;
    Some(Instr::MovImm { dst, imm })
}

#[tactic(auto, unfolding(crate::specs::Instructions::store))]
fn store(text: &[u8]) -> Option<Instr>
    ensures { result ≡ spec.store (tokens text.now) }
{
    let Some((mem, rest)) = memory_at(text) else {
        return None;
    };
    let src = last_register(after(rest, b",".as_slice())?)?;
    Some(Instr::Store { mem, src })
}

#[tactic(auto, unfolding(crate::specs::Instructions::lea))]
fn lea(text: &[u8]) -> Option<Instr>
    ensures { result ≡ spec.lea (tokens text.now) }
{
    let (dst, rest) = destination(text)?;
    let mem = last_memory(rest)?;
    Some(Instr::Lea { dst, mem })
}

#[tactic(auto, unfolding(crate::specs::Instructions::bin))]
fn bin(op: Bin, text: &[u8]) -> Option<Instr>
    ensures { result ≡ spec.bin op (tokens text.now) }
{
    let (dst, rest) = destination(text)?;
    let src = last_src(rest)?;
    Some(Instr::Bin { op, dst, src })
}

#[tactic(auto, unfolding(crate::specs::Instructions::test_row))]
fn test_row(text: &[u8]) -> Option<Instr>
    ensures { result ≡ spec.test_row (tokens text.now) }
{
    let (a, rest) = destination(text)?;
    let b = last_register(rest)?;
    Some(Instr::Test { a, b })
}

#[tactic(auto, unfolding(crate::specs::Instructions::un))]
fn un(op: Un, text: &[u8]) -> Option<Instr>
    ensures { result ≡ spec.un op (tokens text.now) }
{
    let dst = last_register(operands(text)?)?;
    Some(Instr::Un { op, dst })
}

#[tactic(auto, unfolding(crate::specs::Instructions::adcx))]
fn adcx(text: &[u8]) -> Option<Instr>
    ensures { result ≡ spec.adcx (tokens text.now) }
{
    let (dst, src) = register_rm(text)?;
    Some(Instr::Adcx { dst, src })
}

#[tactic(auto, unfolding(crate::specs::Instructions::adox))]
fn adox(text: &[u8]) -> Option<Instr>
    ensures { result ≡ spec.adox (tokens text.now) }
{
    let (dst, src) = register_rm(text)?;
    Some(Instr::Adox { dst, src })
}

#[tactic(auto, unfolding(crate::specs::Instructions::imul))]
fn imul(text: &[u8]) -> Option<Instr>
    ensures { result ≡ spec.imul (tokens text.now) }
{
    let (dst, src) = register_rm(text)?;
    Some(Instr::Imul { dst, src })
}

#[tactic(auto, unfolding(crate::specs::Instructions::mulx))]
fn mulx(text: &[u8]) -> Option<Instr>
    ensures { result ≡ spec.mulx (tokens text.now) }
{
    let (hi, rest) = destination(text)?;
    let (lo, rest) = register_comma(rest)?;
    let src = last_rm(rest)?;
    Some(Instr::Mulx { hi, lo, src })
}

#[tactic(auto, unfolding(crate::specs::Instructions::mul))]
fn mul(text: &[u8]) -> Option<Instr>
    ensures { result ≡ spec.mul (tokens text.now) }
{
    let src = last_rm(operands(text)?)?;
    Some(Instr::Mul { src })
}

#[tactic(auto, unfolding(crate::specs::Instructions::shl))]
fn shl(text: &[u8]) -> Option<Instr>
    ensures { result ≡ spec.shl (tokens text.now) }
{
    let (dst, by) = register_count(text)?;
    Some(Instr::Shl { dst, by })
}

#[tactic(auto, unfolding(crate::specs::Instructions::shr))]
fn shr(text: &[u8]) -> Option<Instr>
    ensures { result ≡ spec.shr (tokens text.now) }
{
    let (dst, by) = register_count(text)?;
    Some(Instr::Shr { dst, by })
}

#[tactic(auto, unfolding(crate::specs::Instructions::shrd))]
fn shrd(text: &[u8]) -> Option<Instr>
    ensures { result ≡ spec.shrd (tokens text.now) }
{
    let (dst, rest) = destination(text)?;
    let (src, rest) = register_comma(rest)?;
    let by = last_count(rest)?;
    Some(Instr::Shrd { dst, src, by })
}

#[tactic(auto, unfolding(crate::specs::Instructions::shlx))]
fn shlx(text: &[u8]) -> Option<Instr>
    ensures { result ≡ spec.shlx (tokens text.now) }
{
    let (dst, src, count) = counted(text)?;
    Some(Instr::Shlx { dst, src, count })
}

#[tactic(auto, unfolding(crate::specs::Instructions::shrx))]
fn shrx(text: &[u8]) -> Option<Instr>
    ensures { result ≡ spec.shrx (tokens text.now) }
{
    let (dst, src, count) = counted(text)?;
    Some(Instr::Shrx { dst, src, count })
}

#[tactic(auto, unfolding(crate::specs::Instructions::set))]
fn set(cond: Cond, text: &[u8]) -> Option<Instr>
    ensures { result ≡ spec.set cond (tokens text.now) }
{
    let dst = last_byte_register(operands(text)?)?;
    Some(Instr::Set { cond, dst })
}

#[tactic(auto, unfolding(crate::specs::Instructions::movzx))]
fn movzx(text: &[u8]) -> Option<Instr>
    ensures { result ≡ spec.movzx (tokens text.now) }
{
    let (dst, rest) = destination(text)?;
    let src = last_byte_register(rest)?;
    Some(Instr::Movzx { dst, src })
}

#[tactic(auto, unfolding(crate::specs::Instructions::cmov))]
fn cmov(cond: Cond, text: &[u8]) -> Option<Instr>
    ensures { result ≡ spec.cmov cond (tokens text.now) }
{
    let (dst, src) = register_rm(text)?;
    Some(Instr::Cmov { cond, dst, src })
}

#[tactic(auto, unfolding(crate::specs::Instructions::plain))]
fn plain(instr: Instr, text: &[u8]) -> Option<Instr>
    ensures { result ≡ spec.plain instr (tokens text.now) }
{
    if !is_end(text) {
        return None;
    }
    Some(instr)
}
