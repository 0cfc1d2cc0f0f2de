//! The steps of the rows, by the public calls of `x86_meaning`.
use crate::reading::{listing_of, step_first};
use crate::rows::{ROWS, STUCK};
use std::alloc::{AllocError, Global};
use std::test::Fail;
use x86_meaning::{Cells, State};

// The place of the one cell of memory, to which `rbx` points.
pub const CELL: u64 = 4096;

// The words and the flags of a state.
#[derive(Clone, Copy)]
pub struct Values {
    pub words: [u64; 4],
    pub cf: Option<bool>,
    pub of: Option<bool>,
    pub zf: Option<bool>,
}

// The flag with this number in a text of three.
pub fn flag(text: &str, number: usize) -> Option<bool> {
    match text.as_bytes().get(number) {
        Some(b'0') => Some(false),
        Some(b'1') => Some(true),
        _ => None,
    }
}

fn values_in(text: &str) -> Option<Values> {
    let mut words = [0; 4];
    let mut parts = text.split_whitespace();
    for word in &mut words {
        *word = u64::from_str_radix(parts.next()?, 16).ok()?;
    }
    let flags = parts.next()?;
    Some(Values {
        words,
        cf: flag(flags, 0),
        of: flag(flags, 1),
        zf: flag(flags, 2),
    })
}

pub fn state_of(alloc: Global, values: Values) -> Result<State, AllocError> {
    let mut cells = Cells::new(alloc);
    cells.set(CELL, values.words[3])?;
    let mut regs = [0; 16];
    regs[0] = values.words[0];
    regs[1] = values.words[1];
    regs[2] = values.words[2];
    regs[3] = CELL;
    Ok(State {
        regs,
        cf: values.cf,
        of: values.of,
        zf: values.zf,
        cells,
    })
}

// Whether the state has these words and flags, and all else as `state_of` sets it.
fn has(state: &State, values: Values) -> bool {
    let [a, b, c, cell] = values.words;
    state.regs == [a, b, c, CELL, 0, 0, 0, 0, 0, 0, 0, 0, 0, 0, 0, 0]
        && state.cells.get(CELL) == Some(cell)
        && state.cf == values.cf
        && state.of == values.of
        && state.zf == values.zf
}

// The parts of a row between its bars.
fn parts_of(row: &str) -> Option<(&str, &str, &str)> {
    let (text, rest) = row.split_once(" | ")?;
    let (before, after) = rest.split_once(" | ")?;
    Some((text, before, after))
}

// Whether the instruction with this text leads from the first state to the second.
fn leads(alloc: Global, text: &str, before: Values, after: Values) -> Result<bool, Fail> {
    let Some(listing) = listing_of(alloc, text)? else {
        return Ok(false);
    };
    let mut state = state_of(alloc, before)?;
    Ok(step_first(&listing, &mut state) && has(&state, after))
}

// Whether the instruction with this text is no `ret`, is stuck in the state and leaves it.
fn is_stuck(alloc: Global, text: &str, before: Values) -> Result<bool, Fail> {
    let Some(listing) = listing_of(alloc, text)? else {
        return Ok(false);
    };
    let mut state = state_of(alloc, before)?;
    let stuck = !step_first(&listing, &mut state);
    Ok(stuck && listing.lines().len() == 2 && has(&state, before))
}

#[test]
fn each_row_is_stepped(rt: HostRuntime) -> Result<(), Fail> {
    for row in ROWS {
        let (text, before, after) = parts_of(row).expect(&rt, "a row has three parts");
        let before = values_in(before).expect(&rt, "its second part has words and flags");
        let after = values_in(after).expect(&rt, "its third part has words and flags");
        assert!(rt; leads(rt.alloc(), text, before, after)?, "{row}");
    }
    Ok(())
}

#[test]
fn stuck_rows_leave_the_state(rt: HostRuntime) -> Result<(), Fail> {
    for row in STUCK {
        let (text, flags) = row.split_once(" | ").expect(&rt, "a row has two parts");
        let before = Values {
            words: [1, 2, 3, 4],
            cf: flag(flags, 0),
            of: flag(flags, 1),
            zf: flag(flags, 2),
        };
        assert!(rt; is_stuck(rt.alloc(), text, before)?, "{row}");
    }
    Ok(())
}
