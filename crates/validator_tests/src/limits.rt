//! A program of 2,048 operations, and a listing of about 10,000 lines for it.
use crate::checks::verdict_text;
use crate::programs::{operation_of, program_with};
use crate::reading::{listing_of, prepared_of};
use equiv_validator::check;
use std::alloc::{AllocError, Global};
use std::test::Fail;

// 1,023 times a sum and a copy of it, then two copies: `b` and 1,023 times `a`.
fn long_body(alloc: Global) -> Result<String, AllocError> {
    let mut body = operation_of(alloc, "s0 = = b")?;
    for number in 0..1023u32 {
        let sum = format!(in alloc; "t{number} = + s{number} a")?;
        let next = number + 1;
        let copy = format!(in alloc; "s{next} = = t{number}")?;
        let sum = operation_of(alloc, sum.as_str())?;
        let copy = operation_of(alloc, copy.as_str())?;
        body.push_str(",")?;
        body.push_str(sum.as_str())?;
        body.push_str(",")?;
        body.push_str(copy.as_str())?;
    }
    let last = operation_of(alloc, "o[0] = = s1023")?;
    body.push_str(",")?;
    body.push_str(last.as_str())?;
    Ok(body)
}

// What the listing does for each sum.
const SUM: &str = "\
mov rax, rcx
add rax, rdx
mov [rsp], rax
mov rcx, [rsp]
mov r9, rcx
sub r9, rdx
mov [rsp + 8], r9
mov r10, [rsp + 8]
xor r9, r10
clc
";

fn long_lines(alloc: Global) -> Result<String, AllocError> {
    let mut lines = String::from_str(alloc, "sub rsp, 16\n")?;
    for _ in 0..1023u32 {
        lines.push_str(SUM)?;
    }
    lines.push_str("mov [rdi], rcx\nadd rsp, 16\nret")?;
    Ok(lines)
}

#[test]
fn long_listings_are_proved(rt: HostRuntime) -> Result<(), Fail> {
    let body = long_body(rt.alloc())?;
    let program = program_with(rt.alloc(), "1", body.as_str())?;
    let prepared = prepared_of(rt.alloc(), program.as_str())?.expect(&rt, "the text is a program");
    assert!(rt; prepared.program().ops().len() == 2048);
    let lines = long_lines(rt.alloc())?;
    let listing = listing_of(rt.alloc(), lines.as_str())?.expect(&rt, "the lines are a listing");
    assert!(rt; listing.lines().len() == 10_234);
    let verdict = check(rt.alloc(), &prepared, &listing)?;
    assert!(rt; verdict_text(rt.alloc(), verdict)?.as_str() == "proved");
    Ok(())
}
