//! The instructions and listings of the tests by their texts.

use asm_text::{TextFault, read};
use std::alloc::Global;
use std::test::Fail;
use x86_instr::Listing;
use x86_meaning::{State, step};

const HEADER: &str = ".intel_syntax noprefix\n.text\n.globl f\nf:\n";

// The listing of these instructions and a last `ret`.
pub fn listing_of(alloc: Global, instructions: &str) -> Result<Option<Listing>, Fail> {
    let text = format!(in alloc; "{HEADER}{instructions}\nret\n")?;
    if text.as_bytes().len() >= u32::MAX as usize {
        return Ok(None);
    }
    match read(alloc, text.as_bytes()) {
        Ok(listing) => Ok(Some(listing)),
        Err(_) => Ok(None),
    }
}

// Steps the first instruction of a listing, where it is not `ret`. False where it is stuck, or is `ret`.
pub fn step_first(listing: &Listing, state: &mut State) -> bool {
    let Some(line) = listing.lines().first() else {
        return false;
    };
    if line.instr.is_ret() {
        return false;
    }
    step(state, &line.instr)
}
