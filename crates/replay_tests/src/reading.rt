//! The programs, journals and listings of the tests by their texts, and what the replay says of them.
use asm_text::read;
use fiat_json::read_program;
use journal_replay::{ReplayFault, replay};
use std::alloc::{AllocError, Global};
use std::sync::Arc;
use std::test::Fail;
use word_program::Program;
use x86_instr::Listing;

/// The digest of the journals of the tests.
const DIGEST: &str = "program 0000000000000000000000000000000000000000000000000000000000000000";

/// The listing of these lines under the name `f`, of which no text has more than 1,048,576 bytes.
fn listing_of(alloc: Global, lines: &str) -> Result<Option<Listing>, AllocError> {
    let text = format!(in alloc; ".intel_syntax noprefix\n.text\n.globl f\nf:\n{lines}\n")?;
    if text.len() > 1_048_576 {
        return Ok(None);
    }
    match read(alloc, text.as_bytes()) {
        Ok(listing) => Ok(Some(listing)),
        Err(_) => Ok(None),
    }
}

/// The program of this text, which has at most 1,048,576 bytes.
pub fn program_of(alloc: Global, text: &str) -> Result<Option<Arc<Program>>, AllocError> {
    if text.len() > 1_048_576 {
        return Ok(None);
    }
    match read_program(alloc, text.as_bytes()) {
        Ok(program) => Ok(Some(Arc::new(alloc, program)?)),
        Err(_) => Ok(None),
    }
}

/// What the replay says of the journal of this version with these lines behind the digest, and of the listing of these
/// lines, for a file with a digest of 32 times this byte. Lines are parted by semicolons. None where a text is none.
pub fn replayed(
    alloc: Global,
    program: &Arc<Program>,
    byte: u8,
    version: u8,
    journal: &str,
    lines: &str,
) -> Result<Option<Result<u32, ReplayFault>>, Fail> {
    let rows = journal.replace(alloc, ";", "\n")?;
    let rows = rows.as_str();
    let text = format!(in alloc; "cryptopt-journal {version}\n{DIGEST}\n{rows}\nend\n")?;
    let Ok(journal) = journal_text::read(alloc, text.as_bytes()) else {
        return Ok(None);
    };
    let lines = lines.replace(alloc, ";", "\n")?;
    let Some(listing) = listing_of(alloc, lines.as_str())? else {
        return Ok(None);
    };
    Ok(Some(replay(alloc, program, [byte; 32], &journal, listing)))
}
