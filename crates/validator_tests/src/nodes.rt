//! How many nodes a program has.
use crate::programs::{ADD1, COPY1, COPY2, MULX1, SWAP2, program_text};
use crate::reading::prepared_of;
use std::alloc::{AllocError, Global};
use std::test::Fail;
use terms::Nodes;

// How many nodes the program of this text has.
fn nodes_of(alloc: Global, program: &str) -> Result<Option<u32>, AllocError> {
    match prepared_of(alloc, program)? {
        Some(prepared) => Ok(Some(prepared.base().count())),
        None => Ok(None),
    }
}

// The registers' starts and the input words; also the words of the product, and the sum and its carry.
#[test]
fn examples_have_their_nodes(rt: HostRuntime) -> Result<(), Fail> {
    for (program, count) in [
        (COPY1, 17),
        (COPY2, 18),
        (SWAP2, 18),
        (MULX1, 20),
        (ADD1, 21),
    ] {
        assert!(rt; nodes_of(rt.alloc(), program)? == Some(count), "{program}");
    }
    Ok(())
}

// Operations, and how many nodes there are behind the 16 registers' starts and the five input words. A literal is a
// node; so is each result, unless it is there already: a carry or a borrow that cannot be, a product with a constant, a
// node behind itself.
const ROWS: &str = "\
o[0] o[1] = addcarryx c a b | 2
o[0] o[1] = addcarryx 0 a b | 3
o[0] o[1] = addcarryx c 0 0 | 1
o[0] o[1] = subborrowx c a b | 2
o[0] o[1] = subborrowx 0 a b | 3
o[0] o[1] = subborrowx c 0 0 | 2
o[0] o[1] = mulx a b | 2
o[0] o[1] = mulx a a | 2
o[0] = cmovznz c a b | 1
o[0] = cmovznz c a a | 0
o[0] = cmovznz 1 a b | 1
o[0] = + a b | 1
o[0] = + a 0 | 1
o[0] = + a 5 | 2
o[0] = - a b | 1
o[0] = - a a | 1
o[0] = * a b | 1
o[0] = * a 1 | 1
o[0] = * a 6 | 2
o[0] = & a b | 1
o[0] = & a a | 0
o[0] = & c 1 | 1
o[0] = | a b | 1
o[0] = ^ a b | 1
o[0] = ^ a a | 1
o[0] = ~ a | 1
o[0] = = a | 0
o[0] = << a 3 | 1
o[0] = >> a 3 | 1
o[0] = >> c 3 | 1
o[0] = shrd a b 3 | 3
t = + a b, o[0] = + b a | 1
t = ~ a, o[0] = ~ t | 1";

// Whether the program with these operations has so many nodes behind those that each program here has.
fn has(alloc: Global, operations: &str, more: u32) -> Result<bool, AllocError> {
    let text = program_text(alloc, operations)?;
    Ok(nodes_of(alloc, text.as_str())? == Some(more.wrapping_add(21)))
}

#[test]
fn each_operation_makes_its_nodes(rt: HostRuntime) -> Result<(), Fail> {
    for row in ROWS.lines() {
        let (operations, more) = row.rsplit_once(" | ").expect(&rt, "a row has two parts");
        let more = u32::from_str_radix(more, 10).expect(&rt, "a number of nodes");
        assert!(rt; has(rt.alloc(), operations, more)?, "{row}");
    }
    Ok(())
}
