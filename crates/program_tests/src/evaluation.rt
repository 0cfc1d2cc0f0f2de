//! What programs compute, and which of their values are bits.
use crate::parts::parts;
use std::alloc::Global;
use std::test::Fail;
use word_program::{EvalFault, Operand, Program, ProgramFault, eval};

const ADD1: &str =
    "add1|out1 u64[2]|arg1 u1;arg2 u64;arg3 u64|addcarryx out1[0],out1[1] arg1,arg2,arg3";

const SUB1: &str =
    "sub1|out1 u64[2]|arg1 u1;arg2 u64;arg3 u64|subborrowx out1[0],out1[1] arg1,arg2,arg3";

const MULX1: &str = "mulx1|out1 u64[2]|arg1 u64;arg2 u64|mulx out1[0],out1[1] arg1,arg2";

const AND2: &str = "and2|out1 u64[1]|arg1 u64[1];arg2 u64[1]|& out1[0] arg1[0],arg2[0]";

const CHAIN2: &str = "\
chain2|out1 u64[4]|arg1 u64[4];arg2 u64[4]|\
addcarryx out1[0],x 0,arg1[0],arg2[0];addcarryx out1[2],y 0,arg1[2],arg2[2];\
addcarryx out1[1],_ x,arg1[1],arg2[1];addcarryx out1[3],_ y,arg1[3],arg2[3]";

// Programs, input words and output words.
const EVALUATED: &[(&str, &[u64], &[u64])] = &[
    (ADD1, &[1, u64::MAX, u64::MAX], &[u64::MAX, 1]),
    (ADD1, &[1, 2, 3], &[6, 0]),
    (SUB1, &[1, 0, u64::MAX], &[0, 1]),
    (SUB1, &[0, 5, 3], &[2, 0]),
    (SUB1, &[1, 3, 3], &[u64::MAX, 1]),
    (MULX1, &[u64::MAX, u64::MAX], &[1, u64::MAX - 1]),
    (AND2, &[12, 10], &[8]),
    (
        CHAIN2,
        &[u64::MAX, 1, u64::MAX, 2, 1, 2, 2, 3],
        &[0, 4, 1, 6],
    ),
];

#[test]
fn programs_are_evaluated(rt: HostRuntime) -> Result<(), Fail> {
    for (row, inputs, outputs) in EVALUATED {
        let parts = parts(rt.alloc(), row)?;
        let program = Program::new(rt.alloc(), &parts)?;
        let words = eval(rt.alloc(), &program, inputs)?;
        assert_eq!(rt; words.as_slice(), *outputs, "{row}");
        assert_eq!(rt; program.input_words() as usize, inputs.len());
        assert_eq!(rt; program.output_words() as usize, outputs.len());
    }
    Ok(())
}

// An operation on `a` and `b`, these two words, and the output.
const OPERATIONS: &[(&str, u64, u64, u64)] = &[
    ("+ o[0] a,b", 11, 12, 23),
    ("+ o[0] a,b", u64::MAX, 2, 1),
    ("- o[0] a,b", 12, 11, 1),
    ("- o[0] a,b", 11, 12, u64::MAX),
    ("* o[0] a,b", 11, 12, 132),
    ("* o[0] a,b", u64::MAX, u64::MAX, 1),
    ("& o[0] a,b", 12, 10, 8),
    ("| o[0] a,b", 12, 10, 14),
    ("^ o[0] a,b", 12, 10, 6),
    ("~ o[0] a", 11, 12, 18_446_744_073_709_551_604),
    ("= o[0] b", 11, 12, 12),
    ("= o[0] 0x10", 11, 12, 16),
    ("<< o[0] a,1", 11, 12, 22),
    ("<< o[0] a,63", 11, 12, 9_223_372_036_854_775_808),
    (">> o[0] a,1", 11, 12, 5),
    (">> o[0] a,63", u64::MAX, 12, 1),
    ("shrd o[0] a,b,4", 11, 12, 13_835_058_055_282_163_712),
    ("shrd o[0] a,b,63", 9_223_372_036_854_775_808, 1, 3),
    ("cmovznz o[0] 0,a,b", 11, 12, 11),
    ("cmovznz o[0] 1,a,b", 11, 12, 12),
];

#[test]
fn operations_are_evaluated(rt: HostRuntime) -> Result<(), Fail> {
    for (operation, a, b, output) in OPERATIONS {
        let row = format!(in rt.alloc(); "f|o u64[1]|a u64;b u64|{operation}")?;
        let parts = parts(rt.alloc(), row.as_str())?;
        let program = Program::new(rt.alloc(), &parts)?;
        let words = eval(rt.alloc(), &program, &[*a, *b])?;
        assert_eq!(rt;
            words.as_slice(),
            [*output].as_slice(),
            "{operation} of {a} and {b}"
        );
    }
    Ok(())
}

// Programs, input words and the fault.
const UNEVALUATED: &[(&str, &[u64], EvalFault)] = &[
    (
        ADD1,
        &[1, 2],
        EvalFault::Count {
            given: 2,
            wanted: 3,
        },
    ),
    (
        ADD1,
        &[2, 2, 3, 4],
        EvalFault::Count {
            given: 4,
            wanted: 3,
        },
    ),
    (ADD1, &[2, 2, 3], EvalFault::OutOfBounds { word: 0 }),
    (
        "f|out1 u64[1]|arg1 u64[2] 1/5 9/5;arg2 u64 - 7|= out1[0] arg2",
        &[9, 4, 8],
        EvalFault::OutOfBounds { word: 1 },
    ),
];

#[test]
fn faulty_inputs_are_told(rt: HostRuntime) -> Result<(), Fail> {
    for (row, inputs, fault) in UNEVALUATED {
        let parts = parts(rt.alloc(), row)?;
        let program = Program::new(rt.alloc(), &parts)?;
        assert_eq!(rt;
            eval(rt.alloc(), &program, inputs).err(),
            Some(*fault),
            "{row}"
        );
    }
    Ok(())
}

#[test]
fn bits_are_told(rt: HostRuntime) -> Result<(), Fail> {
    let parts = parts(
        rt.alloc(),
        "f|out1 u64[1]|arg1 u1;arg2 u64|addcarryx s,c arg1,arg2,arg2;& b c,arg2;>> t arg2,63;= out1[0] s",
    )?;
    let program = Program::new(rt.alloc(), &parts)?;
    assert_eq!(rt; program.name().as_str(), "f");
    assert_eq!(rt; program.ops().len(), 4);
    let bits = [false, true, true, true, false];
    for (number, bit) in bits.iter().enumerate() {
        assert_eq!(rt;
            program.is_bit(&Operand::Value(number as u16)),
            *bit,
            "{number}"
        );
    }
    assert!(rt; program.is_bit(&Operand::Input { param: 1, word: 0 }));
    assert!(rt; !program.is_bit(&Operand::Input { param: 2, word: 0 }));
    assert!(rt; program.is_bit(&Operand::Literal(1)) && !program.is_bit(&Operand::Literal(2)));
    Ok(())
}

// Programs, and whether their outputs may overlap their inputs.
const OVERLAPS: &[(&str, bool)] = &[
    ("f~any|o u64[1]|a u64|= o[0] a", true),
    ("f~none|o u64[1]|a u64|= o[0] a", false),
    ("f|o u64[1]|a u64|= o[0] a", false),
];

#[test]
fn overlap_is_told(rt: HostRuntime) -> Result<(), Fail> {
    for (row, told) in OVERLAPS {
        assert_eq!(rt; program(rt.alloc(), row)?.overlap(), *told, "{row}");
    }
    Ok(())
}

const CHAIN: &str =
    "f|o u64[2];p u64[1]|a u64[2] - 5/6;b u64;c u1;d u64|addcarryx o[0],x c,b,a[0];<< o[1] b,3;= p[0] x;~ _ b";

// Spellings of that program: other names of results, and other spellings of bounds and literals.
const SPELLINGS: &str = "\
f|o u64[2];p u64[1]|a u64[2] - 5/6;b u64;c u1;d u64|addcarryx o[0],y c,b,a[0];<< o[1] b,3;= p[0] y;~ _ b
f~none|o u64[2];p u64[1]|a u64[2] - 5/6;b u64;c u1;d u64|addcarryx o[0],x c,b,a[0];<< o[1] b,3;= p[0] x;~ _ b
f|o u64[2];p u64[1] 0|a u64[2] 0/0 0x5/06;b u64;c u64 - 1;d u64|addcarryx o[0],x c,b,a[0];<< o[1] b,0x3;= p[0] x;~ _ b
";

// Programs that differ from it, each in as little as can be.
const DIFFERENT: &str = "\
f~any|o u64[2];p u64[1]|a u64[2] - 5/6;b u64;c u1;d u64|addcarryx o[0],x c,b,a[0];<< o[1] b,3;= p[0] x;~ _ b
g|o u64[2];p u64[1]|a u64[2] - 5/6;b u64;c u1;d u64|addcarryx o[0],x c,b,a[0];<< o[1] b,3;= p[0] x;~ _ b
f|o u64[2];p u64[1]|a u64[2] - 5/6;b u64;c u1;e u64|addcarryx o[0],x c,b,a[0];<< o[1] b,3;= p[0] x;~ _ b
f|o u64[2];p u64[1]|a u64[2] - 5/6;b u64;c u1;d u64[1]|addcarryx o[0],x c,b,a[0];<< o[1] b,3;= p[0] x;~ _ b
f|o u64[2];p u64[1]|a u64[2] - 5/6;b u64;c u1;d u64 1|addcarryx o[0],x c,b,a[0];<< o[1] b,3;= p[0] x;~ _ b
f|o u64[2];p u64[1]|a u64[2] - 5/7;b u64;c u1;d u64|addcarryx o[0],x c,b,a[0];<< o[1] b,3;= p[0] x;~ _ b
f|o u64[2];p u64[1]|a u64[3] - 5/6/7;b u64;c u1;d u64|addcarryx o[0],x c,b,a[0];<< o[1] b,3;= p[0] x;~ _ b
f|o u64[2];p u64[1]|a u64[2] - 5/6;b u64;c u1|addcarryx o[0],x c,b,a[0];<< o[1] b,3;= p[0] x;~ _ b
f|o u64[2];p u64[1]|a u64[2] - 5/6;b u64;c u1;d u64|subborrowx o[0],x c,b,a[0];<< o[1] b,3;= p[0] x;~ _ b
f|o u64[2];p u64[1]|a u64[2] - 5/6;b u64;c u1;d u64|addcarryx o[0],x c,b,a[0];>> o[1] b,3;= p[0] x;~ _ b
f|o u64[2];p u64[1]|a u64[2] - 5/6;b u64;c u1;d u64|addcarryx o[0],x c,b,a[0];<< o[1] b,4;= p[0] x;~ _ b
f|o u64[2];p u64[1]|a u64[2] - 5/6;b u64;c u1;d u64|addcarryx o[0],x c,b,a[1];<< o[1] b,3;= p[0] x;~ _ b
f|o u64[2];p u64[1]|a u64[2] - 5/6;b u64;c u1;d u64|addcarryx o[0],x c,d,a[0];<< o[1] b,3;= p[0] x;~ _ b
f|o u64[2];p u64[1]|a u64[2] - 5/6;b u64;c u1;d u64|addcarryx o[0],x 0,b,a[0];<< o[1] b,3;= p[0] x;~ _ b
f|o u64[2];p u64[1]|a u64[2] - 5/6;b u64;c u1;d u64|addcarryx o[0],x c,b,a[0];<< o[1] x,3;= p[0] x;~ _ b
f|o u64[2];p u64[1]|a u64[2] - 5/6;b u64;c u1;d u64|addcarryx o[0],x c,b,a[0];<< o[1] b,3;= p[0] x;~ y b
f|o u64[2];p u64[1]|a u64[2] - 5/6;b u64;c u1;d u64|addcarryx o[1],x c,b,a[0];<< o[0] b,3;= p[0] x;~ _ b
f|o u64[2];p u64[1]|a u64[2] - 5/6;b u64;c u1;d u64|addcarryx p[0],x c,b,a[0];<< o[1] b,3;= o[0] x;~ _ b
f|o u64[2];p u64[1]|a u64[2] - 5/6;b u64;c u1;d u64|addcarryx o[0],x c,b,a[0];<< o[1] b,3;= p[0] x;= y b;~ _ b
f|o u64[2];p u64[1]|a u64[2] - 5/6;b u64;c u1;d u64|addcarryx o[0],x c,b,a[0];= p[0] x;<< o[1] b,3;~ _ b
";

fn program(alloc: Global, row: &str) -> Result<Program, ProgramFault> {
    match parts(alloc, row) {
        Ok(parts) => Program::new(alloc, &parts),
        Err(_) => Err(ProgramFault::Memory),
    }
}

#[test]
fn equal_programs_are_the_same(rt: HostRuntime) -> Result<(), Fail> {
    let chain = program(rt.alloc(), CHAIN)?;
    assert!(rt; chain.same(&chain));
    for row in SPELLINGS.lines() {
        let other = program(rt.alloc(), row)?;
        assert!(rt; chain.same(&other) && other.same(&chain), "{row}");
    }
    for row in DIFFERENT.lines() {
        let other = program(rt.alloc(), row)?;
        assert!(rt; !chain.same(&other) && !other.same(&chain), "{row}");
    }
    Ok(())
}
