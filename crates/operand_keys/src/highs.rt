//! Upper ends of values that a symbolic check surely has too: they come from upper ends of operands alone, while a
//! value's interval in a program may be narrower than what the check of a listing knows.

use intervals::Interval;
use word_program::Kind;

const WORD_HALF: u128 = 1 << 63;

/// The words up to this one.
fn up_to(high: u64) -> Interval {
    intervals::between(0, high)
}

/// The upper end of a sum of words; every word where it may pass 2^64.
fn sum_high(a: u64, b: u64, c: u64) -> u64 {
    intervals::window(0, intervals::sum(a, b, c)).high
}

/// The upper end of the carry of a sum.
fn carry_high(a: u64, b: u64, c: u64) -> u64 {
    intervals::floors(0, intervals::sum(a, b, c)).high.min(1)
}

/// The upper end of the low word of a product; every word where the product may pass 2^63.
fn product_high(a: u64, b: u64) -> u64 {
    let product = intervals::product(a, b);
    if product < WORD_HALF {
        return intervals::fitting(0, product).high;
    }
    u64::MAX
}

/// The upper end of a word that is shifted to the left; every word where it may pass 2^63.
fn left_high(a: u64, count: u8) -> u64 {
    if count < 64 && a <= (u64::MAX >> 1) >> count {
        return a << count;
    }
    u64::MAX
}

fn right_high(a: u64, count: u8) -> u64 {
    if count < 64 { a >> count } else { u64::MAX }
}

/// The upper ends of the two results of an operation, from those of its operands in their order. A result that is not
/// there has any.
pub fn result_highs(kind: Kind, a: u64, b: u64, c: u64) -> (u64, u64) {
    match kind {
        Kind::AddCarry => (sum_high(a, b, c), carry_high(a, b, c)),
        Kind::SubBorrow => (u64::MAX, 1),
        Kind::MulX => (
            product_high(a, b),
            intervals::product_high(up_to(a), up_to(b)).high,
        ),
        Kind::CMov => (b.max(c), 0),
        Kind::Add => (sum_high(a, b, 0), 0),
        Kind::Mul => (product_high(a, b), 0),
        Kind::And => (a.min(b), 0),
        Kind::Or | Kind::Xor => (intervals::ones(a | b), 0),
        Kind::Copy => (a, 0),
        Kind::Shl(count) => (left_high(a, count), 0),
        Kind::Shr(count) => (right_high(a, count), 0),
        Kind::Sub | Kind::Not | Kind::Shrd(_) => (u64::MAX, 0),
    }
}
