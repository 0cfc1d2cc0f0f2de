//! `emulate`: the words that a listing leaves, and what it refuses.
use crate::calls::{Files, Host, Left, leaves, refuses};
use crate::programs::{ADD1, CHAIN2, CHAIN2_TEXT, COPY1, COPY1_TEXT, function};
use std::alloc::AllocError;
use std::test::Fail;

const LINE: &str = "emulate p.json p.s --in 7";

// Whether an emulation says this text.
fn says(rt: &impl Host, files: Files<'_>, line: &str, said: &str) -> Result<bool, AllocError> {
    let left = Left {
        end: "0 ",
        asm: files.asm,
        said,
    };
    leaves(rt, files, line, &[3], left)
}

#[test]
fn says_the_words_that_the_listing_leaves(rt: HostRuntime) -> Result<(), Fail> {
    let line = "emulate p.json p.s --in 0xffffffffffffffff,0,0xffffffffffffffff,0,1,0,1,0";
    let said = "out1[0] 0x0000000000000000\nout1[1] 0x0000000000000001\n\
                out1[2] 0x0000000000000000\nout1[3] 0x0000000000000001\n";
    let files = Files {
        program: CHAIN2.as_bytes(),
        asm: CHAIN2_TEXT.as_bytes(),
    };
    assert!(rt; says(&rt, files, line, said)?);
    let files = Files {
        program: COPY1.as_bytes(),
        asm: COPY1_TEXT.as_bytes(),
    };
    assert!(rt; says(&rt, files, LINE, "out1[0] 0x0000000000000007\n")?);
    Ok(())
}

// The carry is put into the overflow flag by `inc`, taken by `adox`, and read by `seto`.
#[test]
fn carries_through_the_overflow_flag(rt: HostRuntime) -> Result<(), Fail> {
    let body = "mov r10, 9223372036854775806\nlea r10, [r10 + rsi]\ninc r10\nmov rax, rdx\n\
                adox rax, rcx\nmov [rdi], rax\nseto cl\nmovzx rcx, cl\nmov [rdi + 8], rcx\nret\n";
    let asm = function(rt.alloc(), body)?;
    let files = Files {
        program: ADD1.as_bytes(),
        asm: asm.as_bytes(),
    };
    let line = "emulate p.json p.s --in 1,0xffffffffffffffff,0";
    let said = "out1[0] 0x0000000000000000\nout1[1] 0x0000000000000001\n";
    assert!(rt; says(&rt, files, line, said)?);
    Ok(())
}

// Each row has the lines of a listing for the copy of the word 7, and the word that it leaves: in order, a copy
// through a preserved register; an output cell as it was; registers without a use; the stack pointer; the place
// of the input array; a cell of the frame; and the return cell.
#[test]
fn starts_from_the_stated_state(rt: HostRuntime) -> Result<(), Fail> {
    for (body, said) in [
        (
            "mov r12, [rsi]\nmov [rdi], r12\nret\n",
            "out1[0] 0x0000000000000007\n",
        ),
        ("ret\n", "out1[0] 0x5a5a5a5a5a5a5a5a\n"),
        ("mov [rdi], rax\nret\n", "out1[0] 0xa5a5a5a5a5a5a500\n"),
        ("mov [rdi], rdx\nret\n", "out1[0] 0xa5a5a5a5a5a5a502\n"),
        ("mov [rdi], r15\nret\n", "out1[0] 0xa5a5a5a5a5a5a50f\n"),
        ("mov [rdi], rsp\nret\n", "out1[0] 0x000000007ffffff8\n"),
        ("mov [rdi], rsi\nret\n", "out1[0] 0x0000000000020000\n"),
        (
            "sub rsp, 16\nmov rax, [rsp + 8]\nmov [rdi], rax\nret\n",
            "out1[0] 0x5a5a5a5a5a5a5a5a\n",
        ),
        (
            "mov [rsp], rdi\nmov rax, [rsp]\nmov [rdi], rax\nret\n",
            "out1[0] 0x0000000000010000\n",
        ),
    ] {
        let asm = function(rt.alloc(), body)?;
        let files = Files {
            program: COPY1.as_bytes(),
            asm: asm.as_bytes(),
        };
        assert!(rt; says(&rt, files, LINE, said)?, "{body}");
    }
    Ok(())
}

// Whether an emulation of a listing with these lines is refused so.
fn refuses_body(rt: &impl Host, body: &str, end: &str) -> Result<bool, AllocError> {
    let asm = function(rt.alloc(), body)?;
    let files = Files {
        program: COPY1.as_bytes(),
        asm: asm.as_bytes(),
    };
    let row = format!(in rt.alloc(); "{LINE} => {end}")?;
    refuses(rt, files, row.as_str(), 2)
}

// Each row has the lines of a listing for the copy, and the end: a read behind an array and under the frame, a
// line that is stuck later, a read of an undefined flag, another text, and one without its return.
#[test]
fn refuses_stuck_listings_and_other_texts(rt: HostRuntime) -> Result<(), Fail> {
    for (body, end) in [
        ("mov rax, [rsi + 8]\nret\n", "11 stuck at 1"),
        ("mov [rsp - 8], rax\nret\n", "11 stuck at 1"),
        (
            "sub rsp, 8\nmov [rsp], rax\nmov rax, [rsp - 8]\nret\n",
            "11 stuck at 3",
        ),
        ("adcx rax, rcx\nret\n", "11 stuck at 1"),
        ("clc\nmov rax\nret\n", "8 assembly line 6"),
        ("clc\n", "9 listing without its return"),
    ] {
        assert!(rt; refuses_body(&rt, body, end)?, "{body}");
    }
    Ok(())
}

// The files are read before the inputs are counted.
#[test]
fn refuses_in_the_order_of_the_words(rt: HostRuntime) -> Result<(), Fail> {
    for (program, asm, row, calls) in [
        (
            ADD1,
            "ret\n",
            "emulate p.json p.s --in 2,0 => 8 assembly line 1",
            2,
        ),
        ("[", "ret\n", "emulate p.json p.s --in 2,0 => 5 not JSON", 1),
        (
            ADD1,
            COPY1_TEXT,
            "emulate p.json p.s --in 2,0 => 12 2 inputs, 3 wanted",
            2,
        ),
        (
            ADD1,
            COPY1_TEXT,
            "emulate p.json p.s --in 2,0,0 => 13 input 0 out of bounds",
            2,
        ),
    ] {
        let files = Files {
            program: program.as_bytes(),
            asm: asm.as_bytes(),
        };
        assert!(rt; refuses(&rt, files, row, calls)?, "{row}");
    }
    Ok(())
}
