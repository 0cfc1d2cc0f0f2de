//! A run in place of a listing that is proved for a program whose output may overlap its input.
use crate::reading::listing_of;
use std::alloc::{AllocError, Global};
use std::test::Fail;
use x86_meaning::{Cells, State, run};

// The place of the two words.
const WORDS: u64 = 4096;

// The state in which both arrays stand at this place, with the words 5 and 6.
fn in_place(alloc: Global) -> Result<State, AllocError> {
    let mut cells = Cells::new(alloc);
    cells.set(WORDS, 5)?;
    cells.set(WORDS + 8, 6)?;
    let mut regs = [0; 16];
    regs[6] = WORDS;
    regs[7] = WORDS;
    Ok(State {
        regs,
        cf: None,
        of: None,
        zf: None,
        cells,
    })
}

#[test]
fn words_are_exchanged_in_place(rt: HostRuntime) -> Result<(), Fail> {
    let lines = "mov rax, [rsi + 8]\nmov rcx, [rsi]\nmov [rdi], rax\nmov [rdi + 8], rcx\nret";
    let listing = listing_of(rt.alloc(), lines)?.expect(&rt, "the lines are a listing");
    let mut state = in_place(rt.alloc())?;
    assert!(rt; run(&listing, &mut state).is_ok());
    assert!(rt; state.cells.get(WORDS) == Some(6) && state.cells.get(WORDS + 8) == Some(5));
    Ok(())
}
