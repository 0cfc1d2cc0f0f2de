//! The listings of the tests, which are those of a copy of one word.
use asm_text::read;
use std::alloc::{AllocError, Global};
use std::test::Fail;
use x86_instr::Listing;

/// The plain listing of the copy, which costs 28, behind its first line.
const PLAIN: &str = "mov [rsp], rdi\nmov [rsp + 8], rsi\nmov rcx, [rsp + 8]\nmov rcx, [rcx]\n\
    mov rax, rcx # 0\nmov r11, [rsp]\nmov [r11], rax\nadd rsp, 24\nret";

/// A listing of the copy that costs 9.
const SHORT: &str = "mov rax, qword ptr [rsi] # 0\nmov qword ptr [rdi], rax\nret";

/// These lines, with so many that cost 1 and change nothing between the head and the rest.
fn padded(alloc: Global, head: &str, count: u32, rest: &str) -> Result<String, AllocError> {
    let mut text = String::from_str(alloc, head)?;
    for _ in 0..count {
        text.push_str("mov rax, rax\n")?;
    }
    text.push_str(rest)?;
    Ok(text)
}

/// The listing of these lines, which have at most 1,048,576 bytes, under the name of the copy.
fn listing_of(alloc: Global, lines: &str) -> Result<Option<Listing>, AllocError> {
    let text = format!(in alloc; ".intel_syntax noprefix\n.text\n.globl copy1\ncopy1:\n{lines}\n")?;
    if text.len() > 1_048_576 {
        return Ok(None);
    }
    match read(alloc, text.as_bytes()) {
        Ok(listing) => Ok(Some(listing)),
        Err(_) => Ok(None),
    }
}

/// The plain listing of the copy, made to cost 90.
pub fn opening(alloc: Global) -> Result<Option<Listing>, Fail> {
    let lines = padded(alloc, "sub rsp, 24\n", 62, PLAIN)?;
    Ok(listing_of(alloc, lines.as_str())?)
}

/// The short listing of the copy, made to cost so much.
pub fn short(alloc: Global, cost: u32) -> Result<Option<Listing>, Fail> {
    let lines = padded(alloc, "", cost.saturating_sub(9), SHORT)?;
    Ok(listing_of(alloc, lines.as_str())?)
}
