//! Programs, spelled by their operations: a name, the results and the arguments.
use std::alloc::{AllocError, Global};
use std::test::Fail;
use word_program::{Items, Program, RawOp, RawParam, RawProgram, Text, Texts};

fn texts(alloc: Global, list: &str) -> Result<Texts, AllocError> {
    let mut texts = Items::new(alloc);
    for text in list.split(',') {
        texts.push(Text::from_str(alloc, text)?)?;
    }
    Ok(texts)
}

/// The text before the first blank, and what follows it.
fn cut(text: &str) -> (&str, &str) {
    text.split_once(' ').unwrap_or((text, ""))
}

fn param(alloc: Global, text: &str) -> Result<RawParam, AllocError> {
    let (name, datatype) = cut(text);
    Ok(RawParam {
        name: Text::from_str(alloc, name)?,
        datatype: Text::from_str(alloc, datatype)?,
        low: None,
        high: None,
    })
}

fn op(alloc: Global, row: &str) -> Result<RawOp, AllocError> {
    let (name, rest) = cut(row);
    let (results, arguments) = cut(rest);
    Ok(RawOp {
        operation: Text::from_str(alloc, name)?,
        arguments: texts(alloc, arguments)?,
        results: texts(alloc, results)?,
    })
}

fn overlap(alloc: Global, text: &str) -> Result<Option<Text>, AllocError> {
    if text.is_empty() {
        return Ok(None);
    }
    Ok(Some(Text::from_str(alloc, text)?))
}

/// The program of this name, of which the first parameter is an output and the others are inputs.
pub fn program(
    alloc: Global,
    name: &str,
    overlapping: &str,
    params: &str,
    body: &str,
) -> Result<Program, Fail> {
    let mut parts = RawProgram {
        name: Text::from_str(alloc, name)?,
        returns: Items::new(alloc),
        arguments: Items::new(alloc),
        body: Items::new(alloc),
        overlap: overlap(alloc, overlapping)?,
    };
    let (output, inputs) = params.split_once(',').unwrap_or((params, ""));
    parts.returns.push(param(alloc, output)?)?;
    for input in inputs.split(',') {
        parts.arguments.push(param(alloc, input)?)?;
    }
    for row in body.split(';') {
        parts.body.push(op(alloc, row)?)?;
    }
    Ok(Program::new(alloc, &parts)?)
}
