//! Calls of the commands with a command line, over a shelf in memory.
use io_ports::{Fault, MemoryShelf, Shelf};
use search_top::{FreeGate, Status, command, exit_of, line_of, search};
use std::alloc::{AllocError, Global};
use std::sync::Wait;
use std::thread::Threads;

/// What a search needs of the process, and memory.
pub trait Host: AllocGlobal + Threads + Wait + Sync {}

impl<R: AllocGlobal + Threads + Wait + Sync> Host for R {}

/// What the files `p.json` and `p.s` have. A file `other` stands beside them.
#[derive(Clone, Copy)]
pub struct Files<'a> {
    pub program: &'a [u8],
    pub asm: &'a [u8],
}

/// Files with this program and another text.
pub fn with_program(program: &str) -> Files<'_> {
    Files {
        program: program.as_bytes(),
        asm: b"old",
    }
}

/// What a call leaves: the exit status and the line with a blank before it, the assembly, and what was said.
#[derive(Clone, Copy)]
pub struct Left<'a> {
    pub end: &'a str,
    pub asm: &'a [u8],
    pub said: &'a str,
}

/// A refusal, which leaves the assembly and says nothing.
pub fn refused<'a>(files: Files<'a>, end: &'a str) -> Left<'a> {
    Left {
        end,
        asm: files.asm,
        said: "",
    }
}

/// The words of a line with a blank between each two.
pub fn words_of(alloc: Global, line: &str) -> Result<Vec<String>, AllocError> {
    let mut words = Vec::new(alloc);
    for word in line.split(' ') {
        words.push(String::from_str(alloc, word)?)?;
    }
    Ok(words)
}

/// The exit status and the line of a status, with a blank between.
pub fn end_of(alloc: Global, status: &Status) -> Result<String, AllocError> {
    let line = line_of(alloc, status)?;
    let exit = exit_of(status);
    format!(in alloc; "{exit} {}", line.as_str())
}

fn shelf_of(alloc: Global, files: Files<'_>, fails: &[u64]) -> Result<MemoryShelf, AllocError> {
    let mut shelf = MemoryShelf::new(alloc, fails)?;
    shelf.put("p.json", files.program)?;
    shelf.put("p.s", files.asm)?;
    shelf.put("other", b"kept")?;
    Ok(shelf)
}

fn has(shelf: &MemoryShelf, name: &str, bytes: &[u8]) -> bool {
    match shelf.file(name) {
        Some(found) => found == bytes,
        None => false,
    }
}

// Whether the files, the output and the status are so.
fn is_left(
    alloc: Global,
    shelf: &MemoryShelf,
    program: &[u8],
    status: &Status,
    left: Left<'_>,
) -> Result<bool, AllocError> {
    let end = end_of(alloc, status)?;
    Ok(
        end.as_str() == left.end
            && has(shelf, "p.json", program)
            && has(shelf, "p.s", left.asm)
            && has(shelf, "other", b"kept")
            && shelf.said() == left.said.as_bytes(),
    )
}

fn fails_next(alloc: Global, shelf: &mut MemoryShelf) -> bool {
    shelf.load(alloc, "other", 4).err() == Some(Fault::Failed)
}

/// Whether a line, by `search` if it begins so and else by `command`, leaves this, where these calls of the shelf
/// fail. The last one of them has to be the first behind those that are made.
pub fn leaves(
    rt: &impl Host,
    files: Files<'_>,
    line: &str,
    fails: &[u64],
    left: Left<'_>,
) -> Result<bool, AllocError> {
    let alloc = rt.alloc();
    let mut shelf = shelf_of(alloc, files, fails)?;
    let words = words_of(alloc, line)?;
    let status = if line.starts_with("search") {
        search(rt, alloc, words.as_slice(), &mut shelf, &FreeGate)
    } else {
        command(alloc, words.as_slice(), &mut shelf)
    };
    Ok(is_left(alloc, &shelf, files.program, &status, left)? && fails_next(alloc, &mut shelf))
}

/// Whether the other one of the two calls refuses the line, and leaves everything with no call of the shelf.
pub fn is_idle(rt: &impl Host, files: Files<'_>, line: &str) -> Result<bool, AllocError> {
    let alloc = rt.alloc();
    let mut shelf = shelf_of(alloc, files, &[0])?;
    let words = words_of(alloc, line)?;
    let status = if line.starts_with("search") {
        command(alloc, words.as_slice(), &mut shelf)
    } else {
        search(rt, alloc, words.as_slice(), &mut shelf, &FreeGate)
    };
    let left = refused(files, "2 usage");
    Ok(is_left(alloc, &shelf, files.program, &status, left)? && fails_next(alloc, &mut shelf))
}

/// Whether a row of a line, `=>`, and the exit status with the line on standard error is a refusal behind so many
/// calls.
pub fn refuses(
    rt: &impl Host,
    files: Files<'_>,
    row: &str,
    calls: u64,
) -> Result<bool, AllocError> {
    let Some((line, end)) = row.split_once(" => ") else {
        return Ok(false);
    };
    leaves(rt, files, line, &[calls], refused(files, end))
}

/// What was said of a program by `search` and then by `check`, and how many instructions were published.
#[derive(Drop)]
pub struct Outcome {
    pub said: Vec<u8>,
    pub instructions: usize,
}

// How many lines of a text stand behind the header, which has four.
fn instructions_in(text: &[u8]) -> usize {
    let mut count = 0usize;
    for byte in text {
        if *byte == b'\n' {
            count = count.saturating_add(1);
        }
    }
    count.saturating_sub(4)
}

/// Searches a program, and checks what was published, on one shelf.
pub fn published(rt: &impl Host, program: &str) -> Result<Outcome, AllocError> {
    let alloc = rt.alloc();
    let mut shelf = shelf_of(alloc, with_program(program), &[])?;
    let words = words_of(alloc, "search p.json p.s")?;
    search(rt, alloc, words.as_slice(), &mut shelf, &FreeGate);
    let words = words_of(alloc, "check p.json p.s")?;
    command(alloc, words.as_slice(), &mut shelf);
    Ok(Outcome {
        said: shelf.said().to_vec(alloc)?,
        instructions: instructions_in(shelf.file("p.s").unwrap_or(b"")),
    })
}
