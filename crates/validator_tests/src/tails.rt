//! Checks on a tail of nodes over the program's.
use crate::checks::verdict_text;
use crate::programs::COPY2;
use crate::reading::{listing_of, prepared_of};
use equiv_validator::{Prepared, check_on};
use std::alloc::{AllocError, Global};
use std::test::Fail;
use term_store::Tail;
use x86_instr::Listing;

// Whether the check of these lines ends with this verdict and leaves so many nodes behind the program's.
fn leaves(
    alloc: Global,
    prepared: &Prepared,
    lines: &str,
    verdict: &str,
    own: u32,
) -> Result<bool, Fail> {
    let Some(listing) = listing_of(alloc, lines)? else {
        return Ok(false);
    };
    let mut tail = Tail::new(alloc, prepared.base());
    let found = check_on(alloc, prepared, &mut tail, &listing)?;
    let text = verdict_text(alloc, found)?;
    Ok(text.as_str() == verdict && tail.own() == own)
}

// Whether a second check, on the tail of the first one, ends like it and leaves as many nodes.
fn repeats(alloc: Global, prepared: &Prepared, listing: &Listing) -> Result<bool, AllocError> {
    let mut tail = Tail::new(alloc, prepared.base());
    let first = check_on(alloc, prepared, &mut tail, listing)?;
    let own = tail.own();
    tail.clear();
    let second = check_on(alloc, prepared, &mut tail, listing)?;
    Ok(first == second && tail.own() == own)
}

const COPY: &str = "mov rax, [rsi]\nmov [rdi], rax\nmov rax, [rsi + 8]\nmov [rdi + 8], rax\nret";

// The nodes behind the program's are the addresses of the two second words.
#[test]
fn a_tail_has_the_nodes_of_the_listing(rt: HostRuntime) -> Result<(), Fail> {
    let prepared = prepared_of(rt.alloc(), COPY2)?.expect(&rt, "the text is a program");
    assert!(rt; leaves(rt.alloc(), &prepared, "ret", "output 0 16 none", 0)?);
    assert!(rt; leaves(rt.alloc(), &prepared, COPY, "proved", 2)?);
    Ok(())
}

#[test]
fn a_cleared_tail_is_used_again(rt: HostRuntime) -> Result<(), Fail> {
    let prepared = prepared_of(rt.alloc(), COPY2)?.expect(&rt, "the text is a program");
    for lines in ["ret", COPY, "mov rax, [rsi + 8]\nmov [rdi], rax\nret"] {
        let listing = listing_of(rt.alloc(), lines)?.expect(&rt, "the lines are a listing");
        assert!(rt; repeats(rt.alloc(), &prepared, &listing)?, "{lines}");
    }
    Ok(())
}
