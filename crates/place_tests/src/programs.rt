//! Programs, spelled by their operations: a name, the results and the arguments.
use std::alloc::{AllocError, Global};
use word_program::{Items, RawOp, RawParam, RawProgram, Text, Texts};

fn texts(alloc: Global, list: &str) -> Result<Texts, AllocError> {
    let mut texts = Items::new(alloc);
    for text in list.split(',') {
        texts.push(Text::from_str(alloc, text)?)?;
    }
    Ok(texts)
}

fn array(alloc: Global, name: &str, datatype: &str) -> Result<RawParam, AllocError> {
    Ok(RawParam {
        name: Text::from_str(alloc, name)?,
        datatype: Text::from_str(alloc, datatype)?,
        low: None,
        high: None,
    })
}

fn op(alloc: Global, row: &str) -> Result<RawOp, AllocError> {
    let (name, rest) = row.split_once(' ').unwrap_or((row, ""));
    let (results, arguments) = rest.split_once(' ').unwrap_or((rest, ""));
    Ok(RawOp {
        operation: Text::from_str(alloc, name)?,
        arguments: texts(alloc, arguments)?,
        results: texts(alloc, results)?,
    })
}

/// The parts of a program that writes the one word of the array `out1`, and reads the four of `arg1` and `arg2`.
pub fn parts(alloc: Global, rows: &[&str]) -> Result<RawProgram, AllocError> {
    let mut parts = RawProgram {
        name: Text::from_str(alloc, "f")?,
        returns: Items::new(alloc),
        arguments: Items::new(alloc),
        body: Items::new(alloc),
        overlap: None,
    };
    parts.returns.push(array(alloc, "out1", "u64[1]")?)?;
    parts.arguments.push(array(alloc, "arg1", "u64[4]")?)?;
    parts.arguments.push(array(alloc, "arg2", "u64[4]")?)?;
    for row in rows {
        parts.body.push(op(alloc, row)?)?;
    }
    Ok(parts)
}
