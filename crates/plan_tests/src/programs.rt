//! Programs, spelled by their operations: a name, the results and the arguments.
use std::alloc::{AllocError, Global};
use word_program::{Items, RawOp, RawParam, RawProgram, Text, Texts};

/// `examples/chain2.json`.
pub const CHAIN2: &[&str] = &[
    "addcarryx out1[0],x 0,arg1[0],arg2[0]",
    "addcarryx out1[2],y 0,arg1[2],arg2[2]",
    "addcarryx out1[1],_ x,arg1[1],arg2[1]",
    "addcarryx out1[3],_ y,arg1[3],arg2[3]",
];

fn texts(alloc: Global, list: &str) -> Result<Texts, AllocError> {
    let mut texts = Items::new(alloc);
    for text in list.split(',') {
        texts.push(Text::from_str(alloc, text)?)?;
    }
    Ok(texts)
}

fn array(alloc: Global, name: &str, datatype: &str) -> Result<RawParam, AllocError> {
    Ok(RawParam {
        name: Text::from_str(alloc, name)?,
        datatype: Text::from_str(alloc, datatype)?,
        low: None,
        high: None,
    })
}

fn op(alloc: Global, row: &str) -> Result<RawOp, AllocError> {
    let (name, rest) = row.split_once(' ').unwrap_or((row, ""));
    let (results, arguments) = rest.split_once(' ').unwrap_or((rest, ""));
    Ok(RawOp {
        operation: Text::from_str(alloc, name)?,
        arguments: texts(alloc, arguments)?,
        results: texts(alloc, results)?,
    })
}

/// The parts of a program that writes the array `out1`, and reads `arg1` and `arg2`.
pub fn parts(
    alloc: Global,
    output: &str,
    inputs: &str,
    rows: &[&str],
) -> Result<RawProgram, AllocError> {
    let mut parts = RawProgram {
        name: Text::from_str(alloc, "f")?,
        returns: Items::new(alloc),
        arguments: Items::new(alloc),
        body: Items::new(alloc),
        overlap: None,
    };
    parts.returns.push(array(alloc, "out1", output)?)?;
    parts.arguments.push(array(alloc, "arg1", inputs)?)?;
    parts.arguments.push(array(alloc, "arg2", inputs)?)?;
    for row in rows {
        parts.body.push(op(alloc, row)?)?;
    }
    Ok(parts)
}
