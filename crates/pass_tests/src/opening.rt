//! The listings of opening plans, and what they cost at most.
use crate::checking::opening_cost;
use crate::curve_25519::{LIMBS, WORDS};
use crate::products::{MUL4, P256};
use std::test::Fail;

#[test]
fn the_opening_of_mul4_costs_263_at_most(rt: HostRuntime) -> Result<(), Fail> {
    assert!(rt; opening_cost(rt.alloc(), MUL4)? <= 263);
    Ok(())
}

#[test]
fn the_opening_of_fiat_p256_mul_costs_377_at_most(rt: HostRuntime) -> Result<(), Fail> {
    assert!(rt; opening_cost(rt.alloc(), P256)? <= 377);
    Ok(())
}

#[test]
fn the_opening_of_go_25519_carry_mul_costs_452_at_most(rt: HostRuntime) -> Result<(), Fail> {
    assert!(rt; opening_cost(rt.alloc(), LIMBS)? <= 452);
    Ok(())
}

#[test]
fn the_opening_of_circl_fp25519_mul_costs_289_at_most(rt: HostRuntime) -> Result<(), Fail> {
    assert!(rt; opening_cost(rt.alloc(), WORDS)? <= 289);
    Ok(())
}
