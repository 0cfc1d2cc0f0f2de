//! The listings of the programs in `examples/`.
use crate::programs::program;
use asm_text::write;
use cost_table::cost;
use mutations::{Draw, Mutation, apply, drawn, words};
use op_order::Plan;
use plain_lower::plain;
use std::alloc::{AllocError, Global};
use std::test::Fail;
use word_program::Program;
use x86_instr::Listing;

/// `examples/chain2.json`.
const CHAIN2: &str = "addcarryx out1[0],x 0,arg1[0],arg2[0];addcarryx out1[2],y 0,arg1[2],arg2[2];\
addcarryx out1[1],_ x,arg1[1],arg2[1];addcarryx out1[3],_ y,arg1[3],arg2[3]";

/// Programs, each by its name, its overlap, its parameters and its operations, and the cost and the number of lines
/// of its opening plan's listing.
const COSTS: &[(&str, &str, &str, &str, u64, usize)] = &[
    (
        "copy1",
        "",
        "out1 u64[1],arg1 u64[1]",
        "= out1[0] arg1[0]",
        28,
        10,
    ),
    (
        "copy2",
        "",
        "out1 u64[2],arg1 u64[2]",
        "= out1[0] arg1[0];= out1[1] arg1[1]",
        47,
        15,
    ),
    (
        "add1",
        "",
        "out1 u64[2],arg1 u1,arg2 u64,arg3 u64",
        "addcarryx out1[0],out1[1] arg1,arg2,arg3",
        50,
        18,
    ),
    (
        "chain2",
        "",
        "out1 u64[4],arg1 u64[4],arg2 u64[4]",
        CHAIN2,
        158,
        52,
    ),
    (
        "swap2",
        "any",
        "out1 u64[2],arg1 u64[2]",
        "= out1[0] arg1[1];= out1[1] arg1[0]",
        63,
        19,
    ),
];

/// The listing of the copy of one word, as in README.md.
const COPY1: &str = r".intel_syntax noprefix
.text
.globl copy1
copy1:
    sub rsp, 24
    mov qword ptr [rsp], rdi
    mov qword ptr [rsp + 8], rsi
    mov rcx, qword ptr [rsp + 8]
    mov rcx, qword ptr [rcx]
    mov rax, rcx # 0
    mov r11, qword ptr [rsp]
    mov qword ptr [r11], rax
    add rsp, 24
    ret
";

/// The listing of two words that change places, of which none is written before both are read.
const SWAP2: &str = r".intel_syntax noprefix
.text
.globl swap2
swap2:
    sub rsp, 32
    mov qword ptr [rsp], rdi
    mov qword ptr [rsp + 8], rsi
    mov rcx, qword ptr [rsp + 8]
    mov rcx, qword ptr [rcx + 8]
    mov rax, rcx # 0
    mov qword ptr [rsp + 16], rax
    mov rcx, qword ptr [rsp + 8]
    mov rcx, qword ptr [rcx]
    mov rax, rcx # 1
    mov qword ptr [rsp + 24], rax
    mov rax, qword ptr [rsp + 16]
    mov r11, qword ptr [rsp]
    mov qword ptr [r11], rax
    mov rax, qword ptr [rsp + 24]
    mov r11, qword ptr [rsp]
    mov qword ptr [r11 + 8], rax
    add rsp, 32
    ret
";

fn opening(alloc: Global, program: &Program) -> Result<Listing, AllocError> {
    let plan = Plan::opening(alloc, program)?;
    plain(alloc, program, &plan)
}

#[test]
fn costs_and_lines_are_those_told(rt: HostRuntime) -> Result<(), Fail> {
    for (name, overlap, params, body, expected, lines) in COSTS {
        let program = program(rt.alloc(), name, overlap, params, body)?;
        let listing = opening(rt.alloc(), &program)?;
        assert_eq!(rt; cost(&listing), *expected, "{name}");
        assert_eq!(rt; listing.lines().len(), *lines, "{name}");
    }
    Ok(())
}

#[test]
fn a_copy_has_the_listing_of_the_readme(rt: HostRuntime) -> Result<(), Fail> {
    let program = program(
        rt.alloc(),
        "copy1",
        "",
        "out1 u64[1],arg1 u64[1]",
        "= out1[0] arg1[0]",
    )?;
    let text = write(rt.alloc(), &opening(rt.alloc(), &program)?)?;
    assert!(rt; text.as_slice() == COPY1.as_bytes());
    Ok(())
}

#[test]
fn outputs_that_overlap_are_written_late(rt: HostRuntime) -> Result<(), Fail> {
    let program = program(
        rt.alloc(),
        "swap2",
        "any",
        "out1 u64[2],arg1 u64[2]",
        "= out1[0] arg1[1];= out1[1] arg1[0]",
    )?;
    let text = write(rt.alloc(), &opening(rt.alloc(), &program)?)?;
    assert!(rt; text.as_slice() == SWAP2.as_bytes());
    Ok(())
}

fn owners(listing: &Listing, alloc: Global) -> Result<Vec<u16>, AllocError> {
    let mut owners = Vec::new(alloc);
    for line in listing.lines() {
        if let Some(owner) = line.owner {
            owners.push(owner.op())?;
        }
    }
    Ok(owners)
}

#[test]
fn blocks_stand_in_the_order_of_the_plan(rt: HostRuntime) -> Result<(), Fail> {
    let params = "out1 u64[4],arg1 u64[4],arg2 u64[4]";
    let program = program(rt.alloc(), "chain2", "", params, CHAIN2)?;
    let mut plan = Plan::opening(rt.alloc(), &program)?;
    assert!(rt; plan.slots().len() == 4);
    // Turn 4 of the seed 1 moves slot 1 to the place 2.
    let mutation = drawn(&program, &plan, words(1, 4), Draw::One);
    apply(&program, mutation, &mut plan);
    let listing = plain(rt.alloc(), &program, &plan)?;
    assert_eq!(rt;
        owners(&listing, rt.alloc())?.as_slice(),
        [0, 2, 1, 3].as_slice()
    );
    assert_eq!(rt; cost(&listing), 158);
    Ok(())
}

#[test]
#[tactic(auto, unfolding(mutations::specs::Mutations::Fits))]
fn marks_change_nothing(rt: HostRuntime) -> Result<(), Fail> {
    let params = "out1 u64[4],arg1 u64[4],arg2 u64[4]";
    let program = program(rt.alloc(), "chain2", "", params, CHAIN2)?;
    let mut plan = Plan::opening(rt.alloc(), &program)?;
    assert!(rt; plan.slots().len() == 4);
    apply(&program, Mutation::Swap { slot: 3 }, &mut plan);
    assert!(rt; plan.slots().len() == 4);
    apply(&program, Mutation::Load { slot: 3 }, &mut plan);
    let text = write(rt.alloc(), &plain(rt.alloc(), &program, &plan)?)?;
    let expected = write(rt.alloc(), &opening(rt.alloc(), &program)?)?;
    assert!(rt; text.as_slice() == expected.as_slice());
    Ok(())
}
