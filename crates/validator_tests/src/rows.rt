//! Listings for the programs of the examples, and what the check says of each.
use crate::checks::gives;
use crate::programs::{ADD1, COPY1, COPY2, SWAP2, SWAP2_APART};
use std::test::Fail;

// A program, a listing's lines, and the verdict: an output word has its number, the program's node and the listing's.
const ROWS: &str = "\
add1 | mov rax, rdx; add rsi, -1; adc rax, rcx; mov [rdi], rax; mov rcx, 0; adc rcx, 0; mov [rdi + 8], rcx; ret | proved
add1 | mov r10, 9223372036854775806; lea r10, [r10 + rsi]; inc r10; mov rax, rdx; adox rax, rcx; mov [rdi], rax; \
    seto cl; movzx rcx, cl; mov [rdi + 8], rcx; ret | proved
add1 | mov r10, 9223372036854775806; lea r10, [r10 + rsi]; add r10, 1; mov rax, rdx; adox rax, rcx; mov [rdi], rax; \
    seto cl; movzx rcx, cl; mov [rdi + 8], rcx; ret | stuck 5
add1 | mov rax, rdx; adc rax, rcx; mov [rdi], rax; mov rcx, 0; adc rcx, 0; mov [rdi + 8], rcx; ret | stuck 2
add1 | mov rax, rdx; test rsi, rsi; adc rax, rcx; mov [rdi], rax; ret | output 0 19 23
copy2 | mov rax, [rsi]; mov [rdi], rax; mov rax, [rsi + 8]; mov [rdi + 8], rax; ret | proved
copy2 | mov rax, [rsi + 8]; mov [rdi], rax; mov [rdi + 8], rax; ret | output 0 16 17
copy2 | mov rax, [rsi + 8]; mov [rdi], rax; ret | output 0 16 17
copy2 | mov rax, [rsi]; mov [rdi], rax; ret | output 1 17 none
copy2 | ret | output 0 16 none
copy1 | mov rax, [rsi]; mov [rdi], rax; ret | proved
copy1 | mov r12, [rsi]; mov [rdi], r12; ret | saved R12
copy1 | mov rax, r12; mov r12, [rsi]; mov [rdi], r12; mov r12, rax; ret | proved
copy1 | mov rbx, r15; mov r15, [rsi]; mov [rdi], r15; ret | saved Rbx
copy1 | mov rax, [rsi + 8]; mov [rdi], rax; ret | stuck 1
copy1 | mov [rsi], rax; ret | stuck 1
copy1 | sub rsp, 32824; mov [rsp], rax; ret | stuck 2
copy1 | sub rsp, 32816; mov [rsp], rax; mov rax, [rsi]; mov [rdi], rax; add rsp, 32816; ret | proved
copy1 | sub rsp, 8; mov rax, [rsi]; mov [rsp], rax; mov rcx, [rsp]; mov [rdi], rcx; add rsp, 8; ret | proved
copy1 | sub rsp, 8; mov rax, [rsp]; ret | stuck 2
copy1 | sub rsp, 8; mov rax, [rsi]; mov [rdi], rax; ret | stack
swap2 | mov rax, [rsi + 8]; mov [rdi], rax; mov rax, [rsi]; mov [rdi + 8], rax; ret | stuck 3
apart | mov rax, [rsi + 8]; mov [rdi], rax; mov rax, [rsi]; mov [rdi + 8], rax; ret | proved
swap2 | mov rax, [rsi + 8]; mov rcx, [rsi]; mov [rdi], rax; mov [rdi + 8], rcx; ret | proved";

// The same for addresses: the cell by an index, by a register that points into the array, and by the frame's start; an
// address that is no word's, behind an array and before one, of the return cell, and of no array.
const ADDRESSES: &str = "\
copy2 | mov rax, 1; mov rcx, [rsi]; mov rdx, [rsi + rax*8]; mov [rdi], rcx; mov [rdi + rax*8], rdx; ret | proved
copy2 | mov rax, 1; mov rcx, [rsi + rax*4 - 4]; mov [rdi + rax*1 - 1], rcx; ret | output 1 17 none
copy2 | mov rcx, [rsi]; add rsi, 8; mov rdx, [rsi]; mov [rdi], rcx; mov [rdi + 8], rdx; ret | proved
copy2 | lea rax, [rdi + 8]; mov rcx, [rsi]; mov [rax - 8], rcx; mov rcx, [rsi + 8]; mov [rax], rcx; ret | proved
copy2 | mov rax, [rsi + 4]; ret | stuck 1
copy2 | mov rax, 4; mov [rdi + rax*1], rcx; ret | stuck 2
copy2 | mov rax, [rsi + 16]; ret | stuck 1
copy2 | mov rax, [rsi - 8]; ret | stuck 1
copy2 | mov [rdi + 16], rax; ret | stuck 1
copy2 | mov rax, [rsi + rcx*8]; ret | stuck 1
copy2 | mov rax, [rdx]; ret | stuck 1
copy2 | mov rax, [rdi]; ret | stuck 1
copy2 | mov rax, [rsp]; ret | stuck 1
copy2 | sub rsp, 16; mov [rsp], rax; mov rcx, [rsp + 16]; ret | stuck 3
copy2 | sub rsp, 16; mov [rsp + 8], rax; mov [rsp - 8], rcx; ret | stuck 3";

fn program_named(name: &str) -> &'static str {
    match name {
        "add1" => ADD1,
        "copy1" => COPY1,
        "copy2" => COPY2,
        "swap2" => SWAP2,
        _ => SWAP2_APART,
    }
}

// The parts of a row between its bars.
pub fn parts_of(row: &str) -> Option<(&str, &str, &str)> {
    let (rest, verdict) = row.rsplit_once(" | ")?;
    let (program, lines) = rest.rsplit_once(" | ")?;
    Some((program, lines, verdict))
}

#[test]
fn listings_of_the_examples_have_their_verdicts(rt: HostRuntime) -> Result<(), Fail> {
    for row in ROWS.lines() {
        let (name, lines, verdict) = parts_of(row).expect(&rt, "a row has three parts");
        assert!(rt;
            gives(rt.alloc(), program_named(name), lines, verdict)?,
            "{row}"
        );
    }
    Ok(())
}

#[test]
fn addresses_name_words_of_arrays_and_frame(rt: HostRuntime) -> Result<(), Fail> {
    for row in ADDRESSES.lines() {
        let (name, lines, verdict) = parts_of(row).expect(&rt, "a row has three parts");
        assert!(rt;
            gives(rt.alloc(), program_named(name), lines, verdict)?,
            "{row}"
        );
    }
    Ok(())
}
