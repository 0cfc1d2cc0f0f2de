//! The steps at the edges of operands.
use crate::edges::EDGES;
use crate::reading::{listing_of, step_first};
use crate::steps::{Values, flag, state_of};
use std::alloc::Global;
use std::test::Fail;
use x86_instr::Listing;
use x86_meaning::State;

const WORDS: [u64; 5] = [0, 1, (1 << 63) - 1, 1 << 63, u64::MAX];

// What a row says before its results.
#[derive(Clone, Copy)]
struct Start<'a> {
    text: &'a str,
    looked_at: &'a str,
    flags: &'a str,
    other: u64,
}

// A row's start, and its results.
fn parts_of(row: &str) -> Option<(Start<'_>, &str)> {
    let (text, rest) = row.split_once(" | ")?;
    let (looked_at, rest) = rest.split_once(" | ")?;
    let (flags, rest) = rest.split_once(" | ")?;
    let (other, results) = rest.split_once(" | ")?;
    let start = Start {
        text,
        looked_at,
        flags,
        other: u64::from_str_radix(other, 16).ok()?,
    };
    Some((start, results))
}

// The state before the step, with this word as the source.
fn before(start: Start<'_>, source: u64) -> Values {
    Values {
        words: [start.other, source, start.other, source],
        cf: flag(start.flags, 0),
        of: flag(start.flags, 1),
        zf: flag(start.flags, 2),
    }
}

fn looked_at(state: &State, name: &str) -> u64 {
    match name {
        "rax" => state.regs[0],
        "rcx" => state.regs[1],
        _ => state.regs[2],
    }
}

// Whether the listing's first step is not stuck, and leaves this word and these flags.
fn leaves(listing: &Listing, state: &mut State, name: &str, word: u64, flags: &str) -> bool {
    step_first(listing, state)
        && looked_at(state, name) == word
        && state.cf == flag(flags, 0)
        && state.of == flag(flags, 1)
        && state.zf == flag(flags, 2)
}

// The same of a row, with a source that has this name.
fn shows(
    alloc: Global,
    start: Start<'_>,
    name: &str,
    source: u64,
    word: u64,
    flags: &str,
) -> Result<bool, Fail> {
    let letter = if start.text.contains('R') { "R" } else { "S" };
    let text = start.text.replace(alloc, letter, name)?;
    let mut state = state_of(alloc, before(start, source))?;
    match listing_of(alloc, text.as_str())? {
        Some(listing) => Ok(leaves(&listing, &mut state, start.looked_at, word, flags)),
        None => Ok(false),
    }
}

// The same with each source that the row allows.
fn each_source_shows(
    alloc: Global,
    start: Start<'_>,
    source: u64,
    word: u64,
    flags: &str,
) -> Result<bool, Fail> {
    let register = shows(alloc, start, "rcx", source, word, flags)?;
    let cell = start.text.contains('R') || shows(alloc, start, "[rbx]", source, word, flags)?;
    let same = source != start.other || shows(alloc, start, "rax", source, word, flags)?;
    Ok(register && cell && same)
}

#[test]
fn each_edge_is_stepped(rt: HostRuntime) -> Result<(), Fail> {
    for row in EDGES {
        let (start, results) = parts_of(row).expect(&rt, "a row has five parts");
        let mut results = results.split_whitespace();
        for source in WORDS {
            let word = results.next().expect(&rt, "a word for each source");
            let word = u64::from_str_radix(word, 16).expect(&rt, "a word in hexadecimal");
            let flags = results.next().expect(&rt, "flags for each source");
            assert!(rt;
                each_source_shows(rt.alloc(), start, source, word, flags)?,
                "{row} with {source}"
            );
        }
        assert!(rt; results.next().is_none(), "{row}");
    }
    Ok(())
}
