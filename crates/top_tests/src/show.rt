//! `show`: the canonical text of a listing, and what it refuses.
use crate::calls::{Files, Host, Left, leaves, refuses};
use crate::programs::{CHAIN2_TEXT, COPY1_TEXT};
use std::alloc::AllocError;
use std::test::Fail;

const HEADER: &str = ".intel_syntax noprefix\n.text\n.globl f\nf:\n";

// Blanks, a carriage return, a blank line, a comment that is no number, and an index without a scale.
const LOOSE: &str = "\
.intel_syntax noprefix
.text
.globl f
f:
 mov rax,[rsp-0x8]\r

lea rcx , [rax+rcx]   # sum
ret
";

const CANONICAL: &str = "\
.intel_syntax noprefix
.text
.globl f
f:
    mov rax, qword ptr [rsp - 8]
    lea rcx, [rax + rcx*1]
    ret
";

const SHORT: &str = ".intel_syntax noprefix\n.text\n.globl f\nf:\n    ret\n";

fn with_asm(asm: &str) -> Files<'_> {
    Files {
        program: b"",
        asm: asm.as_bytes(),
    }
}

// Whether the text is shown as this one.
fn shows(rt: &impl Host, asm: &str, said: &str) -> Result<bool, AllocError> {
    let left = Left {
        end: "0 ",
        asm: asm.as_bytes(),
        said,
    };
    leaves(rt, with_asm(asm), "show p.s", &[2], left)
}

// Whether a listing with these lines behind the header is refused so.
fn refuses_body(rt: &impl Host, body: &str, row: &str) -> Result<bool, AllocError> {
    let asm = format!(in rt.alloc(); "{HEADER}{body}")?;
    refuses(rt, with_asm(asm.as_str()), row, 1)
}

// Behind the four header lines, each row of refusals has the lines of a listing.
#[test]
fn says_the_canonical_text(rt: HostRuntime) -> Result<(), Fail> {
    for (asm, said) in [
        (LOOSE, CANONICAL),
        (CANONICAL, CANONICAL),
        (COPY1_TEXT, COPY1_TEXT),
        (CHAIN2_TEXT, CHAIN2_TEXT),
    ] {
        assert!(rt; shows(&rt, asm, said)?, "{said}");
    }
    for (body, row) in [
        ("foo rax\nret\n", "show p.s => 8 assembly line 5"),
        (
            "ret\n\nmov rax, [rax + rsp*2] # index\n",
            "show p.s => 8 assembly line 7",
        ),
        ("clc\n", "show p.s => 9 listing without its return"),
        ("ret\nret\n", "show p.s => 9 listing without its return"),
        ("", "show p.s => 9 listing without its return"),
    ] {
        assert!(rt; refuses_body(&rt, body, row)?, "{body}");
    }
    Ok(())
}

#[test]
fn takes_65536_lines_and_67108864_bytes(rt: HostRuntime) -> Result<(), Fail> {
    let lines = "    clc\n".repeat(rt.alloc(), 65_535)?;
    let most = format!(in rt.alloc(); "{HEADER}{lines}    ret\n")?;
    assert!(rt; shows(&rt, most.as_str(), most.as_str())?);
    let over = format!(in rt.alloc(); "{HEADER}{lines}    clc\n    ret\n")?;
    let row = "show p.s => 9 listing too long";
    assert!(rt; refuses(&rt, with_asm(over.as_str()), row, 1)?);
    let blank = "\n".repeat(rt.alloc(), 67_108_864 - SHORT.len())?;
    let most = format!(in rt.alloc(); "{SHORT}{blank}")?;
    assert_eq!(rt; most.len(), 67_108_864);
    assert!(rt; shows(&rt, most.as_str(), SHORT)?);
    let over = format!(in rt.alloc(); "{most}\n")?;
    let row = "show p.s => 4 p.s has more than 67108864 bytes";
    assert!(rt; refuses(&rt, with_asm(over.as_str()), row, 1)?);
    Ok(())
}
