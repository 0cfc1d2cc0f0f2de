//! `search`: what it publishes, and what it refuses.
use crate::calls::{Host, Left, leaves, published, refused, with_program};
use crate::programs::{ADD1, AND2, CHAIN2, COPY1, COPY1_TEXT, MUL4, MULX1, SUB1};
use std::alloc::{AllocError, Global};
use std::test::Fail;

const LINE: &str = "search p.json p.s";

// The last of 32 words, under names of 64 bytes.
const LAST: &str = r#"{"operation":"f_1","returns":
[{"name":"o23456789_123456789_123456789_123456789_123456789_123456789_1234","datatype":"u64[1]"}],"arguments":
[{"name":"_23456789_123456789_123456789_123456789_123456789_123456789_1234","datatype":"u64[32]"}],"body":
[{"operation":"=","name":["o23456789_123456789_123456789_123456789_123456789_123456789_1234[0]"],
"arguments":["_23456789_123456789_123456789_123456789_123456789_123456789_1234[31]"]}]}"#;

const LAST_TEXT: &str = "\
.intel_syntax noprefix
.text
.globl f_1
f_1:
    sub rsp, 24
    mov qword ptr [rsp], rdi
    mov qword ptr [rsp + 8], rsi
    mov rcx, qword ptr [rsp + 8]
    mov rcx, qword ptr [rcx + 248]
    mov rax, rcx # 0
    mov r11, qword ptr [rsp]
    mov qword ptr [r11], rax
    add rsp, 24
    ret
";

// Whether a search of the program publishes this text.
fn publishes(rt: &impl Host, program: &str, text: &str) -> Result<bool, AllocError> {
    let left = Left {
        end: "0 ",
        asm: text.as_bytes(),
        said: "opening 28\n",
    };
    leaves(rt, with_program(program), LINE, &[3], left)
}

// Each row has a piece of the program, and what stands in its place.
const SAME: &str = r#"
{"operation" => { "key" : [1,{"operation":null}] ,  "operation"
"copy1" => "\u0063opy\u0031"
"name":"arg1" => "name":"arg1","bound":["0x0"]
"name":"arg1" => "name":"arg1","lbound":"0"
arg1 => out2
"copy1" => 7,"operation":"copy1"
u64[1]"}],"body" => u64[2]","datatype":"u64[1]"}],"body"
"#;

#[test]
fn publishes_the_listing_byte_for_byte(rt: HostRuntime) -> Result<(), Fail> {
    let blanks = " ".repeat(rt.alloc(), 1_048_576 - COPY1.len())?;
    let full = format!(in rt.alloc(); "{COPY1}{blanks}")?;
    assert_eq!(rt; full.len(), 1_048_576);
    for (program, text) in [
        (COPY1, COPY1_TEXT),
        (LAST, LAST_TEXT),
        (full.as_str(), COPY1_TEXT),
    ] {
        assert!(rt; publishes(&rt, program, text)?, "{text}");
    }
    let over = format!(in rt.alloc(); "{full} ")?;
    let left = refused(
        with_program(over.as_str()),
        "4 p.json has more than 1048576 bytes",
    );
    assert!(rt; leaves(&rt, with_program(over.as_str()), LINE, &[1], left)?);
    Ok(())
}

// The text of the program with the row's piece replaced.
fn changed(alloc: Global, program: &str, row: &str) -> Result<String, AllocError> {
    match row.split_once(" => ") {
        Some((piece, by)) => program.replace(alloc, piece, by),
        None => Ok(String::new(alloc)),
    }
}

#[test]
fn reads_the_same_program_in_another_text(rt: HostRuntime) -> Result<(), Fail> {
    for row in SAME.trim().lines() {
        let program = changed(rt.alloc(), COPY1, row)?;
        assert_ne!(rt; program.as_str(), COPY1, "{row}");
        assert!(rt; publishes(&rt, program.as_str(), COPY1_TEXT)?, "{row}");
    }
    Ok(())
}

// Each row has the end, a piece of the program, and what stands in its place.
const FAULTS: &str = r#"
6 program fault P01 at top 0 0 => "operation" => "Operation"
6 program fault P01 at arguments 0 0 => u64[1]"}],"body" => u64[1]","lbound":null}],"body"
6 program fault P01 at body 0 0 => ["out1[0]"] => "out1[0]"
6 program fault P02 at top 0 0 => "copy1" => "1copy"
6 program fault P10 at arguments 0 0 => arg1 => out1
6 program fault P03 at arguments 0 0 => u64[1]"}],"body" => u64[33]"}],"body"
6 program fault P14 at returns 0 1 => u64[1]"}],"arg => u64[2]"}],"arg
6 program fault P07 at body 0 0 => "=" => "copy"
6 program fault P08 at body 0 0 => "=" => "+"
6 program fault P09 at body 0 1 => "arg1[0]" => "arg1[1]"
6 program fault P14 at body 0 2 => "out1[0]" => "out1[1]"
5 not JSON => }]} => }]
5 not JSON => }]} => }]} {}
"#;

#[test]
fn refuses_other_programs(rt: HostRuntime) -> Result<(), Fail> {
    for row in FAULTS.trim().lines() {
        let (end, change) = row.split_once(" => ").unwrap_or(("", ""));
        let program = changed(rt.alloc(), COPY1, change)?;
        let files = with_program(program.as_str());
        assert!(rt;
            leaves(&rt, files, LINE, &[1], refused(files, end))?,
            "{row}"
        );
    }
    Ok(())
}

// Two words exchanged, where outputs may share memory with inputs, and where they may not.
const SWAP2: &str = r#"{"operation":"swap2","overlap":"any",
"returns":[{"name":"out1","datatype":"u64[2]"}],"arguments":[{"name":"arg1","datatype":"u64[2]"}],"body":
[{"operation":"=","name":["out1[0]"],"arguments":["arg1[1]"]},
{"operation":"=","name":["out1[1]"],"arguments":["arg1[0]"]}]}"#;

const APART: &str = r#""overlap":"any", => "#;

// Programs, each with the cost of its opening and the number of the listing's instructions.
const OPENINGS: &[(&str, u64, usize)] = &[
    (COPY1, 28, 10),
    (ADD1, 50, 18),
    (SUB1, 50, 18),
    (CHAIN2, 158, 52),
    (AND2, 41, 13),
    (MULX1, 42, 13),
    (SWAP2, 63, 19),
    (MUL4, 1302, 422),
];

#[test]
fn publishes_an_opening_that_check_proves(rt: HostRuntime) -> Result<(), Fail> {
    for (program, cost, lines) in OPENINGS {
        let left = published(&rt, program)?;
        let said = format!(in rt.alloc(); "opening {cost}\nproved\n")?;
        assert!(rt; left.said.as_slice() == said.as_bytes(), "{program}");
        assert_eq!(rt; left.instructions, *lines, "{program}");
    }
    let apart = changed(rt.alloc(), SWAP2, APART)?;
    let left = published(&rt, apart.as_str())?;
    assert!(rt; left.said.as_slice() == b"opening 47\nproved\n".as_slice());
    Ok(())
}
