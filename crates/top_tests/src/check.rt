//! `check`: listings that are proved, and the first failure of those that are not.
use crate::calls::{Files, Host, Left, leaves, refuses};
use crate::programs::{ADD1, CHAIN2, CHAIN2_TEXT, COPY1, COPY1_TEXT, COPY2, function};
use std::alloc::AllocError;
use std::test::Fail;

const LINE: &str = "check p.json p.s";

// Whether a check of the listing says that it is proved for the program.
fn is_proved(rt: &impl Host, program: &str, asm: &str) -> Result<bool, AllocError> {
    let files = Files {
        program: program.as_bytes(),
        asm: asm.as_bytes(),
    };
    let left = Left {
        end: "0 ",
        asm: files.asm,
        said: "proved\n",
    };
    leaves(rt, files, LINE, &[3], left)
}

// The second listing has another name than its program.
#[test]
fn says_that_a_listing_is_proved(rt: HostRuntime) -> Result<(), Fail> {
    assert!(rt; is_proved(&rt, COPY1, COPY1_TEXT)?);
    let body = "mov rax, rdx\nadd rsi, -1\nadc rax, rcx\nmov [rdi], rax\n\
                mov rcx, 0\nadc rcx, 0\nmov [rdi + 8], rcx\nret\n";
    let asm = function(rt.alloc(), body)?;
    assert!(rt; is_proved(&rt, ADD1, asm.as_str())?);
    Ok(())
}

// Two chains, each in a flag of its own; with an addition between them that ends the one in the overflow flag.
#[test]
fn follows_two_carry_chains(rt: HostRuntime) -> Result<(), Fail> {
    assert!(rt; is_proved(&rt, CHAIN2, CHAIN2_TEXT)?);
    let broken = CHAIN2_TEXT.replace(
        rt.alloc(),
        "    adcx rax, qword ptr [rdx + 8]\n",
        "    add r8, 1\n    adcx rax, qword ptr [rdx + 8]\n",
    )?;
    let files = Files {
        program: CHAIN2.as_bytes(),
        asm: broken.as_bytes(),
    };
    let row = "check p.json p.s => 10 not proved: stuck at 12";
    assert!(rt; refuses(&rt, files, row, 2)?);
    Ok(())
}

// Whether a check of a listing with these lines is refused so, behind both loads.
fn ends(rt: &impl Host, program: &str, body: &str, end: &str) -> Result<bool, AllocError> {
    let asm = function(rt.alloc(), body)?;
    let files = Files {
        program: program.as_bytes(),
        asm: asm.as_bytes(),
    };
    let row = format!(in rt.alloc(); "{LINE} => {end}")?;
    refuses(rt, files, row.as_str(), 2)
}

// Each row has a program, the lines of a listing, and the end: other words in the outputs, and none; a register and
// the stack pointer that are not restored; a read behind the array, a store to it, a carry of which nothing is known.
#[test]
fn says_the_first_failure(rt: HostRuntime) -> Result<(), Fail> {
    for (program, body, end) in [
        (
            COPY2,
            "mov rax, [rsi + 8]\nmov [rdi], rax\nmov [rdi + 8], rax\nret\n",
            "10 not proved: output 0 node 16 against 17",
        ),
        (
            COPY2,
            "mov rax, [rsi + 8]\nmov [rdi], rax\nret\n",
            "10 not proved: output 0 node 16 against 17",
        ),
        (
            COPY2,
            "mov rax, [rsi]\nmov [rdi], rax\nret\n",
            "10 not proved: output 1 node 17 against none",
        ),
        (
            COPY1,
            "mov r12, [rsi]\nmov [rdi], r12\nret\n",
            "10 not proved: register r12",
        ),
        (
            COPY1,
            "sub rsp, 8\nmov rax, [rsi]\nmov [rdi], rax\nret\n",
            "10 not proved: stack",
        ),
        (
            COPY1,
            "mov rax, [rsi + 8]\nmov [rdi], rax\nret\n",
            "10 not proved: stuck at 1",
        ),
        (COPY1, "mov [rsi], rax\nret\n", "10 not proved: stuck at 1"),
        (
            ADD1,
            "mov rax, rdx\nadc rax, rcx\nret\n",
            "10 not proved: stuck at 2",
        ),
    ] {
        assert!(rt; ends(&rt, program, body, end)?, "{body}");
    }
    Ok(())
}

// The files are read in the order of the words, and both before the listing is checked.
#[test]
fn refuses_faulty_files(rt: HostRuntime) -> Result<(), Fail> {
    for (program, asm, row, calls) in [
        ("[", "ret\n", "check p.json p.s => 5 not JSON", 1),
        (COPY1, "ret\n", "check p.json p.s => 8 assembly line 1", 2),
        (
            COPY1,
            COPY1_TEXT,
            "check p.json missing.s => 3 cannot read missing.s",
            2,
        ),
        (COPY1, COPY1_TEXT, "check p.s p.s => 5 not JSON", 1),
    ] {
        let files = Files {
            program: program.as_bytes(),
            asm: asm.as_bytes(),
        };
        assert!(rt; refuses(&rt, files, row, calls)?, "{row}");
    }
    Ok(())
}
