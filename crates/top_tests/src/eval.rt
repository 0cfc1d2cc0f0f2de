//! `eval`: the outputs of programs, and what it refuses.
use crate::calls::{Host, Left, leaves, refuses, with_program};
use crate::programs::{ADD1, AND2, CHAIN2, COPY2, MULX1, SUB1};
use std::alloc::AllocError;
use std::test::Fail;

// Whether an evaluation on this list says this text.
fn says(rt: &impl Host, program: &str, list: &str, said: &str) -> Result<bool, AllocError> {
    let line = format!(in rt.alloc(); "eval p.json --in {list}")?;
    let left = Left {
        end: "0 ",
        asm: b"old",
        said,
    };
    leaves(rt, with_program(program), line.as_str(), &[2], left)
}

#[test]
fn says_the_outputs(rt: HostRuntime) -> Result<(), Fail> {
    for (program, list, said) in [
        (
            ADD1,
            "0,0xffffffffffffffff,1",
            "out1[0] 0x0000000000000000\nout1[1] 0x0000000000000001\n",
        ),
        (
            SUB1,
            "1,0,0xffffffffffffffff",
            "out1[0] 0x0000000000000000\nout1[1] 0x0000000000000001\n",
        ),
        (
            MULX1,
            "0xffffffffffffffff,0xffffffffffffffff",
            "out1[0] 0x0000000000000001\nout1[1] 0xfffffffffffffffe\n",
        ),
        (AND2, "12,0x0A", "out1[0] 0x0000000000000008\n"),
        (
            CHAIN2,
            "0xffffffffffffffff,0,0xffffffffffffffff,0,1,0,1,0",
            "out1[0] 0x0000000000000000\nout1[1] 0x0000000000000001\n\
             out1[2] 0x0000000000000000\nout1[3] 0x0000000000000001\n",
        ),
    ] {
        assert!(rt; says(&rt, program, list, said)?, "{list}");
    }
    Ok(())
}

#[test]
fn refuses_other_inputs_and_programs(rt: HostRuntime) -> Result<(), Fail> {
    for row in [
        "eval p.json --in 2,0,0 => 13 input 0 out of bounds",
        "eval p.json --in 0,0 => 12 2 inputs, 3 wanted",
        "eval p.json => 12 0 inputs, 3 wanted",
        "eval missing.json => 3 cannot read missing.json",
    ] {
        assert!(rt; refuses(&rt, with_program(ADD1), row, 1)?, "{row}");
    }
    let row = "eval p.json => 5 not JSON";
    assert!(rt; refuses(&rt, with_program(""), row, 1)?);
    let twice = COPY2.replace(rt.alloc(), "out1[1]", "out1[0]")?;
    let row = "eval p.json => 6 program fault P14 at body 1 2";
    assert!(rt; refuses(&rt, with_program(twice.as_str()), row, 1)?);
    Ok(())
}
