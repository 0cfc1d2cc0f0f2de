//! Values in registers.
ghost use Rattle.std.specs.Prelude.{◌≡◌, ◌<◌, length};

use crate::programs::parts;
use op_order::Plan;
use register_spill::{Places, RegSet, Spot, Taken};
use std::alloc::Global;
use std::test::Fail;
use word_program::Program;
use x86_instr::Reg;

/// Sixteen copies, and sums of them. The eighth copy and the last one are used at the end, by slot 23.
const COPIES: &[&str] = &[
    "= v0 arg1[0]",
    "= v1 arg1[0]",
    "= v2 arg1[0]",
    "= v3 arg1[0]",
    "= v4 arg1[0]",
    "= v5 arg1[0]",
    "= v6 arg1[0]",
    "= v7 arg1[0]",
    "= v8 arg1[0]",
    "= v9 arg1[0]",
    "= v10 arg1[0]",
    "= v11 arg1[0]",
    "= v12 arg1[0]",
    "= v13 arg1[0]",
    "= v14 arg1[0]",
    "= v15 arg1[0]",
    "+ s0 v0,v1",
    "+ s1 v2,v3",
    "+ s2 v4,v5",
    "+ s3 v6,v8",
    "+ s4 v9,v10",
    "+ s5 v11,v12",
    "+ s6 v13,v14",
    "+ out1[0] v7,v15",
];

const NONE: RegSet = RegSet { bits: 0 };

const R8_ALONE: RegSet = RegSet { bits: 0x0100 };

/// The registers in the order in which they are taken.
const ORDER: [Reg; 15] = [
    Reg::Rax,
    Reg::Rcx,
    Reg::Rdx,
    Reg::Rbx,
    Reg::Rbp,
    Reg::Rsi,
    Reg::Rdi,
    Reg::R8,
    Reg::R9,
    Reg::R10,
    Reg::R11,
    Reg::R12,
    Reg::R13,
    Reg::R14,
    Reg::R15,
];

fn program(alloc: Global) -> Result<Program, Fail> {
    Ok(Program::new(alloc, &parts(alloc, COPIES)?)?)
}

/// Takes a register for a value, if it is in none and one is left.
fn take(places: &mut Places, value: u16, now: u16, pinned: RegSet) -> Option<Taken>
    requires { value < length places.old.spots }
    ensures { length places.new.spots ≡ length places.old.spots }
{
    if places.at(value).is_register() {
        return None;
    }
    if !pinned.leaves_one() {
        return None;
    }
    Some(places.take(value, now, pinned))
}

/// Takes registers for the first fifteen values, and says whether these are all registers in their order.
fn fill(places: &mut Places) -> bool
    requires { 15 < length places.old.spots }
    ensures { length places.new.spots ≡ length places.old.spots }
{
    let mut as_expected = true;
    for value in 0..15 {
        let expected = Taken {
            reg: ORDER[value as usize],
            evicted: None,
        };
        if take(places, value, value, NONE) != Some(expected) {
            as_expected = false;
        }
    }
    as_expected
}

fn evicts(value: u16, reg: Reg) -> Option<Taken> {
    Some(Taken {
        reg,
        evicted: Some((value, value.into())),
    })
}

#[test]
fn the_sixteenth_value_evicts_the_one_that_is_used_last(rt: HostRuntime) -> Result<(), Fail> {
    let program = program(rt.alloc())?;
    let plan = Plan::opening(rt.alloc(), &program)?;
    let mut places = Places::new(rt.alloc(), &program, &plan)?;
    assert!(rt; program.values() == 24);
    assert_eq!(rt; places.at(15), Spot::Nowhere);
    assert!(rt; fill(&mut places));
    assert_eq!(rt; take(&mut places, 15, 15, NONE), evicts(7, Reg::R8));
    assert_eq!(rt; places.at(7), Spot::Frame(7));
    assert_eq!(rt; places.at(15), Spot::Register(Reg::R8));
    Ok(())
}

#[test]
fn a_pinned_register_stays_and_a_tie_goes_to_the_greater_value(
    rt: HostRuntime,
) -> Result<(), Fail> {
    let program = program(rt.alloc())?;
    let plan = Plan::opening(rt.alloc(), &program)?;
    let mut places = Places::new(rt.alloc(), &program, &plan)?;
    assert!(rt; program.values() == 24);
    assert!(rt; fill(&mut places));
    assert_eq!(rt; take(&mut places, 15, 15, R8_ALONE), evicts(14, Reg::R15));
    assert_eq!(rt; places.at(7), Spot::Register(Reg::R8));
    Ok(())
}

#[test]
fn a_value_without_a_next_use_is_evicted_first(rt: HostRuntime) -> Result<(), Fail> {
    let program = program(rt.alloc())?;
    let plan = Plan::opening(rt.alloc(), &program)?;
    let mut places = Places::new(rt.alloc(), &program, &plan)?;
    assert!(rt; program.values() == 24);
    assert!(rt; fill(&mut places));
    assert_eq!(rt; take(&mut places, 15, 19, NONE), evicts(5, Reg::Rsi));
    places.release(3);
    assert_eq!(rt; places.at(3), Spot::Nowhere);
    assert_eq!(rt;
        take(&mut places, 5, 19, NONE),
        Some(Taken {
            reg: Reg::Rbx,
            evicted: None
        })
    );
    Ok(())
}
