//! How a row of a test spells the parts of a program: `NAME|RETURNS|ARGUMENTS|OPERATIONS`, with `~OVERLAP` behind the
//! name where the program says whether outputs may overlap inputs.
//!
//! Parameters and operations have `;` between them. A parameter is its name, its datatype, and its low and its high
//! bounds where it has them, with `-` for no low ones. An operation is its name, its results and its arguments, with
//! `,` between the results and between the arguments.
use std::alloc::{AllocError, Global};
use word_program::{Items, RawOp, RawOps, RawParam, RawParams, RawProgram, Text, Texts};

/// The text before the separator, and the text behind it.
pub fn cut(text: &str, separator: char) -> (&str, &str) {
    match text.split_once(separator) {
        Some(parts) => parts,
        None => (text, ""),
    }
}

fn texts(alloc: Global, list: &str, separator: char) -> Result<Texts, AllocError> {
    let mut texts = Items::new(alloc);
    if !list.is_empty() {
        for text in list.split(separator) {
            texts.push(Text::from_str(alloc, text)?)?;
        }
    }
    Ok(texts)
}

// No bounds, an empty list of them, or bounds with `/` between them.
fn bounds(alloc: Global, list: &str) -> Result<Option<Texts>, AllocError> {
    match list {
        "" | "-" => Ok(None),
        "()" => Ok(Some(Items::new(alloc))),
        _ => Ok(Some(texts(alloc, list, '/')?)),
    }
}

fn params(alloc: Global, list: &str) -> Result<RawParams, AllocError> {
    let mut params = Items::new(alloc);
    if !list.is_empty() {
        for text in list.split(';') {
            let (name, rest) = cut(text, ' ');
            let (datatype, rest) = cut(rest, ' ');
            let (low, high) = cut(rest, ' ');
            params.push(RawParam {
                name: Text::from_str(alloc, name)?,
                datatype: Text::from_str(alloc, datatype)?,
                low: bounds(alloc, low)?,
                high: bounds(alloc, high)?,
            })?;
        }
    }
    Ok(params)
}

/// An operation: its name, its results and its arguments.
pub fn op(alloc: Global, text: &str) -> Result<RawOp, AllocError> {
    let (name, rest) = cut(text, ' ');
    let (results, arguments) = cut(rest, ' ');
    Ok(RawOp {
        operation: Text::from_str(alloc, name)?,
        arguments: texts(alloc, arguments, ',')?,
        results: texts(alloc, results, ',')?,
    })
}

fn body(alloc: Global, list: &str) -> Result<RawOps, AllocError> {
    let mut body = Items::new(alloc);
    if !list.is_empty() {
        for text in list.split(';') {
            body.push(op(alloc, text)?)?;
        }
    }
    Ok(body)
}

// The name, and the text behind `~` where there is one.
fn name_and_overlap(alloc: Global, text: &str) -> Result<(Text, Option<Text>), AllocError> {
    match text.split_once('~') {
        Some((name, overlap)) => Ok((
            Text::from_str(alloc, name)?,
            Some(Text::from_str(alloc, overlap)?),
        )),
        None => Ok((Text::from_str(alloc, text)?, None)),
    }
}

/// The parts that a row spells.
pub fn parts(alloc: Global, row: &str) -> Result<RawProgram, AllocError> {
    let (name, rest) = cut(row, '|');
    let (returns, rest) = cut(rest, '|');
    let (arguments, operations) = cut(rest, '|');
    let (name, overlap) = name_and_overlap(alloc, name)?;
    Ok(RawProgram {
        name,
        returns: params(alloc, returns)?,
        arguments: params(alloc, arguments)?,
        body: body(alloc, operations)?,
        overlap,
    })
}
