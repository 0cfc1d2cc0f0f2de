//! What the marks of a slot say of the source of its instruction.
ghost use Rattle.op_order.specs.Legal.{IsLegal};

use crate::programs::program;
use asm_text::write;
use fast_lower::{fall_back, fast, is_fast};
use mutations::{Mutation, apply};
use op_order::Plan;
use plain_lower::plain;
use std::alloc::{AllocError, Global};
use std::test::Fail;
use word_program::Program;

/// The function of two words of arrays, up to its block.
const HEAD: &str = ".intel_syntax noprefix
.text
.globl and2
and2:
    sub rsp, 32
    mov qword ptr [rsp], rdi
    mov qword ptr [rsp + 8], rsi
    mov qword ptr [rsp + 16], rdx
";

/// What stands behind the block's instruction.
const TAIL: &str = "    mov r11, qword ptr [rsp]
    mov qword ptr [r11], rax
    add rsp, 32
    ret
";

const FROM_SECOND: &str = "    mov rax, qword ptr [rsp + 8]
    mov rax, qword ptr [rax]
    mov rcx, qword ptr [rsp + 16]
    and rax, qword ptr [rcx + 8] # 0
";

const FROM_FIRST: &str = "    mov rax, qword ptr [rsp + 16]
    mov rax, qword ptr [rax + 8]
    mov rcx, qword ptr [rsp + 8]
    and rax, qword ptr [rcx] # 0
";

const LOADED: &str = "    mov rax, qword ptr [rsp + 8]
    mov rax, qword ptr [rax]
    mov rcx, qword ptr [rsp + 16]
    mov rcx, qword ptr [rcx + 8]
    and rax, rcx # 0
";

const LOADED_FIRST: &str = "    mov rax, qword ptr [rsp + 16]
    mov rax, qword ptr [rax + 8]
    mov rcx, qword ptr [rsp + 8]
    mov rcx, qword ptr [rcx]
    and rax, rcx # 0
";

const FAST_HEAD: &str = ".intel_syntax noprefix
.text
.globl and2
and2:
";

const FAST_FROM_SECOND: &str = "    mov rax, qword ptr [rsi]
    and rax, qword ptr [rdx + 8] # 0
    mov qword ptr [rdi], rax
    ret
";

const FAST_FROM_FIRST: &str = "    mov rax, qword ptr [rdx + 8]
    and rax, qword ptr [rsi] # 0
    mov qword ptr [rdi], rax
    ret
";

const FAST_LOADED: &str = "    mov rax, qword ptr [rdx + 8]
    mov rcx, qword ptr [rsi]
    and rcx, rax # 0
    mov qword ptr [rdi], rcx
    ret
";

/// `&` of the first word of one array and the second word of another one.
fn and2(alloc: Global) -> Result<Program, Fail> {
    program(
        alloc,
        "and2",
        "",
        "out1 u64[1],arg1 u64[2],arg2 u64[2]",
        "& out1[0] arg1[0],arg2[1]",
    )
}

/// Turns the marks of the first slot.
#[tactic(auto, unfolding(mutations::specs::Mutations::Fits))]
pub fn mark(program: &Program, plan: &mut Plan, swap: bool, load_first: bool)
    requires { IsLegal program.now plan.old.slots }
    ensures { IsLegal program.now plan.new.slots }
{
    if swap && plan.slots().len() > 0 {
        apply(program, Mutation::Swap { slot: 0 }, plan);
    }
    if load_first && plan.slots().len() > 0 {
        apply(program, Mutation::Load { slot: 0 }, plan);
    }
}

/// The text of the fall-back with these marks.
fn text(alloc: Global, swap: bool, load_first: bool) -> Result<Vec<u8>, Fail> {
    let program = and2(alloc)?;
    let mut plan = Plan::opening(alloc, &program)?;
    mark(&program, &mut plan, swap, load_first);
    let listing = fall_back(alloc, &program, &plan)?;
    Ok(write(alloc, &listing)?)
}

/// Whether that is the function with this block.
fn has_block(alloc: Global, swap: bool, load_first: bool, block: &str) -> Result<bool, Fail> {
    let told = format!(in alloc; "{HEAD}{block}{TAIL}")?;
    Ok(text(alloc, swap, load_first)?.as_slice() == told.as_str().as_bytes())
}

#[test]
fn sources_are_read_where_the_marks_say(rt: HostRuntime) -> Result<(), Fail> {
    let alloc = rt.alloc();
    assert!(rt; has_block(alloc, false, false, FROM_SECOND)?);
    assert!(rt; has_block(alloc, true, false, FROM_FIRST)?);
    assert!(rt; has_block(alloc, false, true, LOADED)?);
    assert!(rt; has_block(alloc, true, true, LOADED_FIRST)?);
    Ok(())
}

/// Whether the plain listing is a fast one, and the one that `fast` gives.
fn verdicts(alloc: Global, load_first: bool) -> Result<(bool, bool), Fail> {
    let program = and2(alloc)?;
    let mut plan = Plan::opening(alloc, &program)?;
    mark(&program, &mut plan, false, load_first);
    let slow = plain(alloc, &program, &plan)?;
    let listing = fast(alloc, &program, &plan)?;
    Ok((
        is_fast(&program, &plan, &slow),
        is_fast(&program, &plan, &listing),
    ))
}

#[test]
fn a_plain_listing_is_fast_only_where_its_source_is_loaded_first(
    rt: HostRuntime,
) -> Result<(), Fail> {
    assert_eq!(rt; verdicts(rt.alloc(), false)?, (false, true));
    assert_eq!(rt; verdicts(rt.alloc(), true)?, (true, true));
    Ok(())
}

/// The text of the fast listing with these marks.
fn fast_text(alloc: Global, swap: bool, load_first: bool) -> Result<Vec<u8>, Fail> {
    let program = and2(alloc)?;
    let mut plan = Plan::opening(alloc, &program)?;
    mark(&program, &mut plan, swap, load_first);
    let listing = fast(alloc, &program, &plan)?;
    Ok(write(alloc, &listing)?)
}

/// Whether that is the function with these lines.
fn is_fast_text(alloc: Global, swap: bool, load_first: bool, lines: &str) -> Result<bool, Fail> {
    let text = fast_text(alloc, swap, load_first)?;
    let told = format!(in alloc; "{FAST_HEAD}{lines}")?;
    Ok(text.as_slice() == told.as_str().as_bytes())
}

#[test]
fn the_pass_reads_a_source_where_it_is_passed(rt: HostRuntime) -> Result<(), Fail> {
    assert!(rt; is_fast_text(rt.alloc(), false, false, FAST_FROM_SECOND)?);
    assert!(rt; is_fast_text(rt.alloc(), true, false, FAST_FROM_FIRST)?);
    assert!(rt; is_fast_text(rt.alloc(), false, true, FAST_LOADED)?);
    Ok(())
}
