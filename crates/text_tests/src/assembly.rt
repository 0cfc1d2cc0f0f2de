//! The assembly text, read and written by the public calls of `asm_text`.
use asm_text::{TextFault, read, write};
use std::alloc::{AllocError, Global};
use std::test::Fail;

const HEADER: &str = ".intel_syntax noprefix\n.text\n.globl f\nf:\n";

// Lines that are instructions, each beside the line that is written of it.
const READ: &[(&str, &str)] = &[
    ("mov rax, rbx", "mov rax, rbx"),
    ("\tmov\trax\t,\trbx\t", "mov rax, rbx"),
    ("mov rax,rbx", "mov rax, rbx"),
    ("mov rax, rbx\r", "mov rax, rbx"),
    ("mov rax, rbx # 7", "mov rax, rbx # 7"),
    ("mov rax, rbx#0007\t", "mov rax, rbx # 7"),
    ("mov rax, rbx # 2047", "mov rax, rbx # 2047"),
    ("mov rax, rbx # 2048", "mov rax, rbx"),
    ("mov rax, rbx # 99999999999999999999999", "mov rax, rbx"),
    ("mov rax, rbx # 0x7", "mov rax, rbx"),
    ("mov rax, rbx # 7 8", "mov rax, rbx"),
    ("mov rax, rbx # 7 # 8", "mov rax, rbx"),
    ("mov rax, rbx #", "mov rax, rbx"),
    ("mov rax, rbx # \u{e9}", "mov rax, rbx"),
    (
        "mov rax, 18446744073709551615",
        "mov rax, 18446744073709551615",
    ),
    (
        "mov rax, 0xFfffffffffffffff",
        "mov rax, 18446744073709551615",
    ),
    ("mov rax, -1", "mov rax, 18446744073709551615"),
    ("mov rax, -0", "mov rax, 0"),
    (
        "mov rax, -9223372036854775808",
        "mov rax, 9223372036854775808",
    ),
    ("add rax, -2147483648", "add rax, -2147483648"),
    ("add rax, 2147483647", "add rax, 2147483647"),
    ("add rax, 000000000000000000000000000001", "add rax, 1"),
    ("cmp r15, [r8]", "cmp r15, qword ptr [r8]"),
    ("mov rax, qword ptr[rbx]", "mov rax, qword ptr [rbx]"),
    (
        "mov rax, qword\tptr [ rbx + rcx * 0x2 + 007 ]",
        "mov rax, qword ptr [rbx + rcx*2 + 7]",
    ),
    ("mov rax, [rbx+rcx]", "mov rax, qword ptr [rbx + rcx*1]"),
    (
        "mov rax, [rbx+rcx*08-0x8]",
        "mov rax, qword ptr [rbx + rcx*8 - 8]",
    ),
    ("mov rax, [rbx - 0]", "mov rax, qword ptr [rbx]"),
    (
        "mov rax, [rsp - 2147483648]",
        "mov rax, qword ptr [rsp - 2147483648]",
    ),
    (
        "mov rax, [rsp + 2147483647]",
        "mov rax, qword ptr [rsp + 2147483647]",
    ),
    ("mov [rdi], rax", "mov qword ptr [rdi], rax"),
    ("lea rax, qword ptr [rdi + 8]", "lea rax, [rdi + 8]"),
    ("mulx r10, rax, rcx", "mulx r10, rax, rcx"),
    ("mul [rdi]", "mul qword ptr [rdi]"),
    ("imul rax, rcx", "imul rax, rcx"),
    ("shl rax, 0x3f", "shl rax, 63"),
    ("shrd rax, rcx, 1", "shrd rax, rcx, 1"),
    ("shlx rax, [rdi], rcx", "shlx rax, qword ptr [rdi], rcx"),
    ("seto sil", "seto sil"),
    ("movzx r10, r10b", "movzx r10, r10b"),
    ("cmovnz rax, [rdi]", "cmovnz rax, qword ptr [rdi]"),
    ("test r10, r10", "test r10, r10"),
    ("adcx rax, rcx", "adcx rax, rcx"),
    ("adox rax, rcx", "adox rax, rcx"),
    ("not rax", "not rax"),
    ("clc", "clc"),
];

// Lines that are none.
const REFUSED: &[&str] = &[
    "foo rax",
    "mov",
    "movrax, rbx",
    "mov rax",
    "mov rax rbx",
    "mov rax, rbx,",
    "mov rax, rbx, rcx",
    "mov RAX, rbx",
    "Mov rax, rbx",
    "mov rax, eax",
    "mov rax, al",
    "mov rax, 18446744073709551616",
    "mov rax, - 1",
    "mov rax, +1",
    "mov rax, -9223372036854775809",
    "mov rax, 0x",
    "mov rax, 0X1",
    "mov rax, 1f",
    "mov [rdi], 1",
    "mov [rdi], [rsi]",
    "mov [rdi] rax",
    "add rax, 2147483648",
    "add rax, -2147483649",
    "add [rdi], rax",
    "mov rax, qwordptr [rbx]",
    "mov rax, dword ptr [rbx]",
    "mov rax, ptr [rbx]",
    "mov rax, []",
    "mov rax, [8]",
    "mov rax, [rbx",
    "mov rax, [rbx + -8]",
    "mov rax, [rcx*2 + rbx]",
    "mov rax, [rbx + 8 + rcx]",
    "mov rax, [rbx + rcx - rdx]",
    "mov rax, [rbx + rsp]",
    "mov rax, [rbx + rsp*1]",
    "mov rax, [rbx + rcx*3]",
    "mov rax, [rbx + rcx*0]",
    "mov rax, [rbx + rcx*16]",
    "mov rax, [rbx + 2147483648]",
    "mov rax, [rbx - 2147483649]",
    "mov[rdi], rax",
    "mul[rdi]",
    "lea rax, rbx",
    "shl rax, 0",
    "shl rax, 64",
    "shl rax, -0",
    "shl rax, rcx",
    "shlx rax, rcx, [rdi]",
    "seto rax",
    "movzx rax, rbx",
    "test rax, [rdi]",
    "inc [rdi]",
    "ret 8",
    "clc rax",
    "f:",
    ".text",
    "mov rax, rbx\r\r",
    "mov rax, rbx ; 7",
];

// What is written of the listing that a text stands for. No text here comes near the greatest length.
fn answer(alloc: Global, text: &str) -> Result<Result<Vec<u8>, TextFault>, AllocError> {
    if text.len() >= u32::MAX as usize {
        return Ok(Err(TextFault::TooLong));
    }
    match read(alloc, text.as_bytes()) {
        Ok(listing) => Ok(Ok(write(alloc, &listing)?)),
        Err(fault) => Ok(Err(fault)),
    }
}

// Whether the text is read, and this text is written of it.
fn gives(alloc: Global, text: &str, wanted: &str) -> Result<bool, AllocError> {
    match answer(alloc, text)? {
        Ok(bytes) => Ok(bytes.as_slice() == wanted.as_bytes()),
        Err(_) => Ok(false),
    }
}

fn fault(alloc: Global, text: &str) -> Result<Option<TextFault>, AllocError> {
    match answer(alloc, text)? {
        Ok(_) => Ok(None),
        Err(fault) => Ok(Some(fault)),
    }
}

#[test]
fn lines_are_read(rt: HostRuntime) -> Result<(), Fail> {
    for (line, written) in READ {
        let text = format!(in rt.alloc(); "{HEADER}{line}\nret\n")?;
        let wanted = format!(in rt.alloc(); "{HEADER}    {written}\n    ret\n")?;
        assert!(rt;
            gives(rt.alloc(), text.as_str(), wanted.as_str())?,
            "{line}"
        );
    }
    Ok(())
}

#[test]
fn lines_are_refused(rt: HostRuntime) -> Result<(), Fail> {
    for line in REFUSED {
        let text = format!(in rt.alloc(); "{HEADER}{line}\nret\n")?;
        assert_eq!(rt;
            fault(rt.alloc(), text.as_str())?,
            Some(TextFault::Line(5)),
            "{line}"
        );
    }
    Ok(())
}

// Blanks, hexadecimal numbers, carriage returns, comments and blank lines, and an index without a scale.
#[test]
fn forms_of_the_text_are_put_in_order(rt: HostRuntime) -> Result<(), Fail> {
    let text = format!(in rt.alloc();
        "{HEADER} mov rax,[rsp-0x8]\r\n\nlea rcx , [rax+rcx]   # sum\nret\n"
    )?;
    let wanted = format!(in rt.alloc();
        "{HEADER}    mov rax, qword ptr [rsp - 8]\n    lea rcx, [rax + rcx*1]\n    ret\n"
    )?;
    assert!(rt; gives(rt.alloc(), text.as_str(), wanted.as_str())?);
    Ok(())
}

const CHAIN: &str = "\
    xor rax, rax\nmov rax, [rsi]\nmov rcx, [rsi + 16]\nadcx rax, [rdx]\nadox rcx, [rdx + 16]\n\
    mov [rdi], rax\nmov [rdi + 16], rcx\nmov rax, [rsi + 8]\nmov rcx, [rsi + 24]\nadcx rax, [rdx + 8]\n\
    adox rcx, [rdx + 24]\nmov [rdi + 8], rax\nmov [rdi + 24], rcx\nret";

const CHAIN_WRITTEN: &str = "\
    \x20   xor rax, rax\n    mov rax, qword ptr [rsi]\n    mov rcx, qword ptr [rsi + 16]\n\
    \x20   adcx rax, qword ptr [rdx]\n    adox rcx, qword ptr [rdx + 16]\n    mov qword ptr [rdi], rax\n\
    \x20   mov qword ptr [rdi + 16], rcx\n    mov rax, qword ptr [rsi + 8]\n\
    \x20   mov rcx, qword ptr [rsi + 24]\n    adcx rax, qword ptr [rdx + 8]\n\
    \x20   adox rcx, qword ptr [rdx + 24]\n    mov qword ptr [rdi + 8], rax\n\
    \x20   mov qword ptr [rdi + 24], rcx\n    ret\n";

// Two interleaved carry chains, without a line feed at the end.
#[test]
fn two_chains_are_read_and_written(rt: HostRuntime) -> Result<(), Fail> {
    let text = format!(in rt.alloc(); "{HEADER}{CHAIN}")?;
    let wanted = format!(in rt.alloc(); "{HEADER}{CHAIN_WRITTEN}")?;
    assert!(rt; gives(rt.alloc(), text.as_str(), wanted.as_str())?);
    assert!(rt; gives(rt.alloc(), wanted.as_str(), wanted.as_str())?);
    Ok(())
}

// Each text beside the line at which it fails.
const FAULTY: &[(&str, u32)] = &[
    ("", 1),
    ("\n", 2),
    ("# nothing\n\n", 3),
    (".intel_syntax noprefix", 2),
    (".intel_syntax noprefix\n.text\n.globl f\n", 4),
    (".intel_syntax noprefix\n.text\n.globl f", 4),
    ("\n.text\n", 2),
    (".intel_syntaxnoprefix\n", 1),
    (".intel_syntax prefix\n", 1),
    (".intel_syntax noprefix\n.data\n", 2),
    (".intel_syntax noprefix\n.text\n.globl 1f\n", 3),
    (".intel_syntax noprefix\n.text\n.globl _\n", 3),
    (".intel_syntax noprefix\n.text\n.globl f g\n", 3),
    (".intel_syntax noprefix\n.text\n.globl f\ng:\n", 4),
    (".intel_syntax noprefix\n.text\n.globl f\nf :\n", 4),
    (".intel_syntax noprefix\n.text\n.globl f\nf\n", 4),
    (".intel_syntax noprefix\n.text\n.globl f\nret\nf:\n", 4),
    (".intel_syntax noprefix\n.text\n.globl f\nf:\nfoo\n", 5),
    (
        ".intel_syntax noprefix\n.text\n.globl f\nf:\nret\nret\nfoo",
        7,
    ),
    (".intel_syntax noprefix\n.text\n.globl f\nf:\nclc\nret\r", 6),
];

#[test]
fn the_first_faulty_line_is_named(rt: HostRuntime) -> Result<(), Fail> {
    for (text, line) in FAULTY {
        assert_eq!(rt;
            fault(rt.alloc(), text)?,
            Some(TextFault::Line(*line)),
            "{text}"
        );
    }
    Ok(())
}

#[test]
fn rules_of_listings_come_last(rt: HostRuntime) -> Result<(), Fail> {
    let none = format!(in rt.alloc(); "{HEADER}clc\n")?;
    assert_eq!(rt;
        fault(rt.alloc(), none.as_str())?,
        Some(TextFault::NoReturn)
    );
    assert_eq!(rt; fault(rt.alloc(), HEADER)?, Some(TextFault::NoReturn));
    let two = format!(in rt.alloc(); "{HEADER}ret\nret\n")?;
    assert_eq!(rt; fault(rt.alloc(), two.as_str())?, Some(TextFault::NoReturn));
    Ok(())
}

#[test]
fn too_many_instructions(rt: HostRuntime) -> Result<(), Fail> {
    let mut text = String::from_str(rt.alloc(), HEADER)?;
    for _ in 0..65535u32 {
        text.push_str("clc\n")?;
    }
    let most = format!(in rt.alloc(); "{}ret\n", text.as_str())?;
    assert_eq!(rt; fault(rt.alloc(), most.as_str())?, None);
    let more = format!(in rt.alloc(); "{}clc\nret\n", text.as_str())?;
    assert_eq!(rt; fault(rt.alloc(), more.as_str())?, Some(TextFault::TooLong));
    let faulty = format!(in rt.alloc(); "{}clc\nret\nfoo\n", text.as_str())?;
    assert_eq!(rt;
        fault(rt.alloc(), faulty.as_str())?,
        Some(TextFault::Line(65542))
    );
    Ok(())
}

// A name may be a mnemonic or a register.
#[test]
fn names_may_be_mnemonics(rt: HostRuntime) -> Result<(), Fail> {
    let text = ".intel_syntax noprefix # Intel\n .text\n\t.globl ret\nret:\nret\n";
    let wanted = ".intel_syntax noprefix\n.text\n.globl ret\nret:\n    ret\n";
    assert!(rt; gives(rt.alloc(), text, wanted)?);
    let register = ".intel_syntax noprefix\n.text\n.globl rax\nrax:\n    ret\n";
    assert!(rt; gives(rt.alloc(), register, register)?);
    Ok(())
}
