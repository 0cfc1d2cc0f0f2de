//! Runs of listings, by the public calls of `x86_meaning`.
use crate::reading::listing_of;
use crate::steps::{CELL, Values, state_of};
use std::test::Fail;
use x86_meaning::{Stuck, run};

// `rax` is 7, the one cell holds 5, and all flags are undefined.
const BEFORE: Values = Values {
    words: [7, 0, 0, 5],
    cf: None,
    of: None,
    zf: None,
};

#[test]
fn a_run_ends_at_ret(rt: HostRuntime) -> Result<(), Fail> {
    let text = "mov rax, [rbx]\nadd rax, -1\nmov [rbx], rax";
    let listing = listing_of(rt.alloc(), text)?.expect(&rt, "the lines are a listing");
    let mut state = state_of(rt.alloc(), BEFORE)?;
    assert!(rt; run(&listing, &mut state).is_ok());
    assert!(rt; state.regs[0] == 4 && state.cells.get(CELL) == Some(4));
    assert!(rt; state.cf == Some(true) && state.of == Some(false) && state.zf == Some(false));
    Ok(())
}

#[test]
fn a_run_stops_before_a_stuck_line(rt: HostRuntime) -> Result<(), Fail> {
    let text = "clc\nadcx rax, rcx\nadox rax, rcx\nclc";
    let listing = listing_of(rt.alloc(), text)?.expect(&rt, "the lines are a listing");
    let mut state = state_of(rt.alloc(), BEFORE)?;
    match run(&listing, &mut state) {
        Ok(()) => assert!(rt; false, "the third line reads a flag that is undefined"),
        Err(Stuck { line }) => assert!(rt; line == 3),
    }
    assert!(rt; state.regs[0] == 7 && state.cf == Some(false) && state.of.is_none());
    Ok(())
}
