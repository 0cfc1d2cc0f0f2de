//! The check of fast listings.
use crate::marks::mark;
use crate::programs::program;
use equiv_validator::{Prepared, Verdict, check};
use fast_lower::fall_back;
use op_order::Plan;
use std::alloc::Global;
use std::sync::Arc;
use std::test::Fail;

/// Programs, a row each: the overlap, the parameters and the operations.
const PROGRAMS: &[(&str, &str, &str)] = &[
    (
        "",
        "out1 u64[4],arg1 u64[4],arg2 u64[4]",
        "addcarryx out1[0],x 0,arg1[0],arg2[0];addcarryx out1[1],y x,arg1[1],arg2[1];\
addcarryx out1[2],_ y,arg1[2],arg2[2];- out1[3] arg1[3],arg2[3]",
    ),
    (
        "any",
        "out1 u64[3],arg1 u64[3],arg2 u64[3]",
        "* out1[0] arg1[0],arg2[0];^ out1[1] arg1[1],arg2[1];| out1[2] arg1[2],arg2[2]",
    ),
    (
        "",
        "out1 u64[2],arg1 u64[1],arg2 u64[1]",
        "subborrowx out1[0],x 0,arg1[0],arg2[0];= out1[1] x",
    ),
];

fn is_proved(
    alloc: Global,
    row: &(&str, &str, &str),
    swap: bool,
    load_first: bool,
) -> Result<bool, Fail> {
    let program = Arc::new(alloc, program(alloc, "f", row.0, row.1, row.2)?)?;
    let mut plan = Plan::opening(alloc, &program)?;
    mark(&program, &mut plan, swap, load_first);
    let listing = fall_back(alloc, &program, &plan)?;
    let prepared = Prepared::new(alloc, program)?;
    match check(alloc, &prepared, &listing)? {
        Verdict::Proved(_) => Ok(true),
        Verdict::Not(_) => Ok(false),
    }
}

/// Whether the fall-backs of all programs are proved with these marks of their first slots.
fn all_proved(alloc: Global, swap: bool, load_first: bool) -> Result<bool, Fail> {
    for row in PROGRAMS {
        if !is_proved(alloc, row, swap, load_first)? {
            return Ok(false);
        }
    }
    Ok(true)
}

#[test]
fn fall_backs_are_proved_whatever_the_marks(rt: HostRuntime) -> Result<(), Fail> {
    assert!(rt; all_proved(rt.alloc(), false, false)?);
    assert!(rt; all_proved(rt.alloc(), true, false)?);
    assert!(rt; all_proved(rt.alloc(), false, true)?);
    assert!(rt; all_proved(rt.alloc(), true, true)?);
    Ok(())
}
