//! The listings of plans that mutations change.
ghost use Rattle.op_order.specs.Legal.{IsLegal};

use crate::checking::{changed, is_proved, prepared};
use crate::curve_25519::{LIMBS, WORDS};
use crate::examples::EXAMPLES;
use crate::mixed::{CARRIES, IN_PLACE, SHIFTS};
use crate::products::{MUL4, P256};
use equiv_validator::Prepared;
use mutations::words;
use op_order::Plan;
use std::alloc::{AllocError, Global};
use std::test::Fail;

/// How many of the plans with another template, or with a mark, in one slot have no proved listing.
fn failures_at(
    alloc: Global,
    prepared: &Prepared,
    plan: &Plan,
    slot: u32,
) -> Result<u32, AllocError>
    requires { IsLegal prepared.now plan.now.slots }
{
    let mut failures = 0u32;
    for number in 0..7u32 {
        // The kinds 1, 2 and 3 are a template, an exchange, and a load; a template of five is drawn by its number.
        let kind = if number < 5 {
            1
        } else {
            number.saturating_sub(3)
        };
        let other = changed(alloc, prepared.program(), plan, [kind, slot, number, 0])?;
        if !is_proved(alloc, prepared, &other)? {
            failures = failures.saturating_add(1);
        }
    }
    Ok(failures)
}

/// How many plans with one change to the opening plan have no proved listing.
fn failures_by_slot(alloc: Global, text: &str) -> Result<u32, Fail> {
    let prepared = prepared(alloc, text)?;
    let plan = Plan::opening(alloc, prepared.program())?;
    let mut failures = 0u32;
    for slot in 0..20u32 {
        failures = failures.saturating_add(failures_at(alloc, &prepared, &plan, slot)?);
    }
    Ok(failures)
}

/// How many plans of a walk from a plan by drawn mutations have no proved listing.
fn failures_from(
    alloc: Global,
    prepared: &Prepared,
    start: Plan,
    seed: u64,
) -> Result<u32, AllocError>
    requires { IsLegal prepared.now start.slots }
{
    let mut plan = start;
    let mut failures = 0u32;
    for turn in 0..100u32 {
        plan = changed(alloc, prepared.program(), &plan, words(seed, turn))?;
        if !is_proved(alloc, prepared, &plan)? {
            failures = failures.saturating_add(1);
        }
    }
    Ok(failures)
}

/// The same of a walk from the opening plan.
fn failures_of_walk(alloc: Global, text: &str, seed: u64) -> Result<u32, Fail> {
    let prepared = prepared(alloc, text)?;
    let plan = Plan::opening(alloc, prepared.program())?;
    Ok(failures_from(alloc, &prepared, plan, seed)?)
}

#[test]
fn each_template_of_sums_is_proved(rt: HostRuntime) -> Result<(), Fail> {
    assert!(rt; failures_by_slot(rt.alloc(), CARRIES)? == 0);
    Ok(())
}

#[test]
fn each_template_of_products_and_shifts_is_proved(rt: HostRuntime) -> Result<(), Fail> {
    assert!(rt; failures_by_slot(rt.alloc(), SHIFTS)? == 0);
    Ok(())
}

#[test]
fn each_template_in_place_is_proved(rt: HostRuntime) -> Result<(), Fail> {
    assert!(rt; failures_by_slot(rt.alloc(), IN_PLACE)? == 0);
    Ok(())
}

#[test]
fn plans_of_sums_are_proved_on_a_walk(rt: HostRuntime) -> Result<(), Fail> {
    assert!(rt; failures_of_walk(rt.alloc(), CARRIES, 1)? == 0);
    Ok(())
}

#[test]
fn plans_of_products_and_shifts_are_proved_on_a_walk(rt: HostRuntime) -> Result<(), Fail> {
    assert!(rt; failures_of_walk(rt.alloc(), SHIFTS, 2)? == 0);
    Ok(())
}

#[test]
fn plans_in_place_are_proved_on_a_walk(rt: HostRuntime) -> Result<(), Fail> {
    assert!(rt; failures_of_walk(rt.alloc(), IN_PLACE, 3)? == 0);
    Ok(())
}

#[test]
fn plans_of_mul4_are_proved_on_a_walk(rt: HostRuntime) -> Result<(), Fail> {
    assert!(rt; failures_of_walk(rt.alloc(), MUL4, 4)? == 0);
    Ok(())
}

#[test]
fn plans_of_fiat_p256_mul_are_proved_on_a_walk(rt: HostRuntime) -> Result<(), Fail> {
    assert!(rt; failures_of_walk(rt.alloc(), P256, 5)? == 0);
    Ok(())
}

#[test]
fn plans_of_go_25519_carry_mul_are_proved_on_a_walk(rt: HostRuntime) -> Result<(), Fail> {
    assert!(rt; failures_of_walk(rt.alloc(), LIMBS, 6)? == 0);
    Ok(())
}

#[test]
fn plans_of_circl_fp25519_mul_are_proved_on_a_walk(rt: HostRuntime) -> Result<(), Fail> {
    assert!(rt; failures_of_walk(rt.alloc(), WORDS, 7)? == 0);
    Ok(())
}

#[test]
fn plans_of_small_examples_are_proved_on_a_walk(rt: HostRuntime) -> Result<(), Fail> {
    for text in EXAMPLES {
        assert!(rt; failures_of_walk(rt.alloc(), text, 8)? == 0);
    }
    Ok(())
}
