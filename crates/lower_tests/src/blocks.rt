//! The block of each template of each operation.
ghost use Rattle.op_order.specs.Legal.{IsLegal};

use crate::programs::{cut, program};
use crate::rows::{PRODUCTS, SHIFTS, SUMS, WORDS};
use asm_text::write;
use cost_table::cost;
use mutations::{Mutation, apply};
use op_order::Plan;
use plain_lower::plain;
use std::alloc::{AllocError, Global};
use std::test::Fail;
use templates::count;
use word_program::Program;

const HEADER: &str = ".intel_syntax noprefix\n.text\n.globl f\nf:\n    ";

/// The lines that save the parameters.
const SAVES: &str = "mov qword ptr [rsp], rdi\nmov qword ptr [rsp + 8], rsi
mov qword ptr [rsp + 16], rdx\nmov qword ptr [rsp + 24], rcx\n";

/// Sets the template of the first slot, where its operation has that template.
#[tactic(auto, unfolding(mutations::specs::Mutations::Fits))]
fn choose(program: &Program, plan: &mut Plan, number: u8)
    requires { IsLegal program.now plan.old.slots }
    ensures { IsLegal program.now plan.new.slots }
{
    if plan.slots().len() == 0 {
        return;
    }
    let op = plan.slots()[0].op;
    if usize::from(op) >= program.ops().len() {
        return;
    }
    if number < count(program, op) {
        apply(program, Mutation::Template { slot: 0, number }, plan);
    }
}

/// The text of the listing by this template of the first operation.
fn text_by(alloc: Global, program: &Program, template: u8) -> Result<Vec<u8>, Fail> {
    let mut plan = Plan::opening(alloc, program)?;
    choose(program, &mut plan, template);
    let listing = plain(alloc, program, &plan)?;
    Ok(write(alloc, &listing)?)
}

/// The text of a listing with this block.
fn text_around(alloc: Global, frame: &str, block: &str) -> Result<String, AllocError> {
    let first = format!(in alloc; "sub rsp, {frame}\n{SAVES}{block}")?;
    let lines = format!(in alloc; "{}add rsp, {frame}\nret", first.as_str())?;
    let indented = lines.as_str().replace(alloc, "\n", "\n    ")?;
    format!(in alloc; "{HEADER}{}\n", indented.as_str())
}

/// Whether the block of a row is the one that the listing has.
fn is_as_told(alloc: Global, row: &str) -> Result<bool, Fail> {
    let (head, block) = row.split_once('\n').unwrap_or((row, ""));
    let (operation, head) = cut(head);
    let (template, head) = cut(head);
    let (frame, head) = cut(head);
    let (words, operands) = cut(head);
    let params = format!(in alloc; "out1 u64[{words}],c u1,a u64,b u64")?;
    let body = format!(in alloc; "{operation} {operands}")?;
    let program = program(alloc, "f", "", params.as_str(), body.as_str())?;
    let template = template.parse::<u8>().unwrap_or(255);
    let text = text_by(alloc, &program, template)?;
    Ok(text.as_slice() == text_around(alloc, frame, block)?.as_bytes())
}

/// The first line of the first row that is not as told.
fn first_wrong(alloc: Global, rows: &str) -> Result<Option<&str>, Fail> {
    for row in rows.split('@') {
        if row.len() > 1 && !is_as_told(alloc, row)? {
            return Ok(Some(row));
        }
    }
    Ok(None)
}

#[test]
fn sums_carry_in_and_out(rt: HostRuntime) -> Result<(), Fail> {
    assert_eq!(rt; first_wrong(rt.alloc(), SUMS)?, None);
    Ok(())
}

#[test]
fn products_have_a_low_and_a_high_word(rt: HostRuntime) -> Result<(), Fail> {
    assert_eq!(rt; first_wrong(rt.alloc(), PRODUCTS)?, None);
    Ok(())
}

#[test]
fn words_are_computed_in_rax(rt: HostRuntime) -> Result<(), Fail> {
    assert_eq!(rt; first_wrong(rt.alloc(), WORDS)?, None);
    Ok(())
}

#[test]
fn shifts_and_choices_have_their_blocks(rt: HostRuntime) -> Result<(), Fail> {
    assert_eq!(rt; first_wrong(rt.alloc(), SHIFTS)?, None);
    Ok(())
}

// The carry of the sum goes in and comes out through the overflow flag.
#[test]
fn a_sum_by_the_overflow_flag_costs_two_more(rt: HostRuntime) -> Result<(), Fail> {
    let program = program(
        rt.alloc(),
        "add1",
        "",
        "out1 u64[2],arg1 u1,arg2 u64,arg3 u64",
        "addcarryx out1[0],out1[1] arg1,arg2,arg3",
    )?;
    let mut plan = Plan::opening(rt.alloc(), &program)?;
    assert_eq!(rt; cost(&plain(rt.alloc(), &program, &plan)?), 50);
    choose(&program, &mut plan, 2);
    assert_eq!(rt; cost(&plain(rt.alloc(), &program, &plan)?), 52);
    Ok(())
}
