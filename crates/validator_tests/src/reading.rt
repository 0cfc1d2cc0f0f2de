//! The programs and listings of the tests by their texts.
use asm_text::read;
use equiv_validator::Prepared;
use fiat_json::read_program;
use std::alloc::{AllocError, Global};
use std::sync::Arc;
use std::test::Fail;
use word_program::Program;
use x86_instr::Listing;

// The listing of these lines under this name, of which no text has more than 1,048,576 bytes.
pub fn named_listing(alloc: Global, name: &str, lines: &str) -> Result<Option<Listing>, Fail> {
    let header = format!(in alloc; ".intel_syntax noprefix\n.text\n.globl {name}\n{name}:")?;
    let text = format!(in alloc; "{}\n{lines}\n", header.as_str())?;
    if text.len() > 1_048_576 {
        return Ok(None);
    }
    match read(alloc, text.as_bytes()) {
        Ok(listing) => Ok(Some(listing)),
        Err(_) => Ok(None),
    }
}

// The same under the name `f`.
pub fn listing_of(alloc: Global, lines: &str) -> Result<Option<Listing>, Fail> {
    named_listing(alloc, "f", lines)
}

// The program of this text, which has at most 1,048,576 bytes.
pub fn program_of(alloc: Global, text: &str) -> Option<Program> {
    if text.len() > 1_048_576 {
        return None;
    }
    match read_program(alloc, text.as_bytes()) {
        Ok(program) => Some(program),
        Err(_) => None,
    }
}

// The same, prepared for checks.
pub fn prepared_of(alloc: Global, text: &str) -> Result<Option<Prepared>, AllocError> {
    let Some(program) = program_of(alloc, text) else {
        return Ok(None);
    };
    let program = Arc::new(alloc, program)?;
    Ok(Some(Prepared::new(alloc, program)?))
}
